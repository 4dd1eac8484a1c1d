//! The domain that keeps nothing.

use crate::domain::{Domain, Item};
use crate::stack::Operands;
use pkops::{Inst, Op};
use pkstack::Move;

/// Keeps nothing of any object.
#[derive(Clone, Copy)]
pub struct Nothing;

/// What `Nothing` keeps of an object.
#[derive(Clone, Copy)]
pub struct NoItem;

impl Item for NoItem {
    ghost none = { record {} };

    #[inline(always)]
    fn none() -> NoItem {
        NoItem
    }
}

impl Domain for Nothing {
    type Item = NoItem;

    ghost follows = { record {
      given = λ domain instruction items. record {};
      after = λ domain instruction items. domain;
      after_move = λ domain what kept instruction. domain;
      after_stop = λ domain. domain;
    } };

    #[inline(always)]
    fn made(&mut self, _inst: &Inst<'_>) -> NoItem {
        NoItem
    }

    #[inline(always)]
    fn passed(&mut self, _op: Op, _count: u64) -> NoItem {
        NoItem
    }

    #[inline(always)]
    fn operated(&mut self, _op: Op, _operands: &Operands<'_, NoItem>) -> NoItem {
        NoItem
    }

    #[inline(always)]
    fn moved(&mut self, _what: Move, _kept: u64, _inst: &Inst<'_>) {}

    #[inline(always)]
    fn stopped(&mut self) {}
}
