//! Checks an import against the policy.
ghost use Rattle.std.specs.Prelude.{◌≡◌, ◌⊎◌, IfOk, IfErr, OnOk, Some, Ok, Err, if◌then◌else◌};
ghost use Rattle.std.specs.Prelude.{is_none};
ghost use Rattle.pkmachine.specs.Policies.{permit_of};
ghost use Rattle.pkimport.specs.Import.{AskedPair, asked_shown};
ghost use Rattle.pkimport.specs.Table.{named_asked};
ghost use Rattle.pkmachine.specs.Knowledge.{OffList, permitted};
ghost use Rattle.pkmachine.specs.Private.StepErrors.{ruled, IsRefusedWith, IsForMemory};

use crate::operate::StepError;
use crate::policy::{Permit, Policy};
use pkimport::{Asked, ImportTable, Named, pair_of};
use pklist::pairs;
use pkops::Reason;
use std::alloc::Global;

/// Refuses an import that the policy does not permit, with `UnknownImport` or `ImportOffList`.
pub fn permit(
    alloc: Global,
    policy: &Permit,
    table: &ImportTable,
    named: Named<'_>,
) -> Result<(), StepError>
    ensures ok { OnOk result (
        ruled (permit_of policy.now) (named_asked table.now.texts named.entry)
        ≡ Ok (Some (named_asked table.now.texts named.entry))) }
    ensures err { IfErr result (λ d. IsRefusedWith (ruled (permit_of policy.now)
        (named_asked table.now.texts named.entry)) d ⊎ IsForMemory d) }
{
    if permits_all(policy) {
        return Ok(());
    }
    match named {
        Named::Unknown => Err(StepError {
            reason: Reason::UnknownImport,
            pair: None,
        }),
        Named::Made(first, second) => {
            permit_pair(alloc, policy, table.text(first), table.text(second))
        }
        Named::Written(module_name, name) => permit_pair(alloc, policy, module_name, name),
    }
}

/// Whether the policy permits every import.
fn permits_all(policy: &Permit) -> bool
    ensures { result ≡ is_none (permit_of policy.now) }
{
    match policy {
        Permit::By(Policy::AnyImport) => true,
        _ => false,
    }
}

/// Whether the policy permits the pair.
fn permits(policy: &Permit, module_name: &str, name: &str) -> bool
    ensures { permitted (permit_of policy.now) module_name.now name.now
        ≡ if result then Ok (Some (AskedPair module_name.now name.now))
        else Err (OffList module_name.now name.now) }
{
    match policy {
        Permit::By(Policy::Listed(list)) => list.contains(module_name, name),
        Permit::By(Policy::AnyImport) => true,
        Permit::Pairs(pairs) => pairs::have(pairs, module_name.as_bytes(), name.as_bytes()),
        Permit::Sorted(pairs) => pairs::found(pairs, module_name.as_bytes(), name.as_bytes()),
    }
}

/// Refuses a pair that the policy does not permit, with a copy of the pair.
fn permit_pair(
    alloc: Global,
    policy: &Permit,
    module_name: &str,
    name: &str,
) -> Result<(), StepError>
    ensures ok { OnOk result (permitted (permit_of policy.now) module_name.now name.now
        ≡ Ok (Some (AskedPair module_name.now name.now))) }
    ensures err { IfErr result (λ d. IsRefusedWith (permitted (permit_of policy.now) module_name.now
        name.now) d ⊎ IsForMemory d) }
{
    if permits(policy, module_name, name) {
        return Ok(());
    }
    let pair = boxed_pair(alloc, module_name, name)?;
    Err(StepError {
        reason: Reason::ImportOffList,
        pair: Some(pair),
    })
}

/// Copies a pair into a box.
fn boxed_pair(alloc: Global, module_name: &str, name: &str) -> Result<Box<Asked>, Reason>
    ensures ok { IfOk result (λ b. asked_shown b.value ≡ AskedPair module_name.now name.now) }
    ensures err { IfErr result (λ r. r ≡ Reason.OutOfMemory) }
{
    let pair = pair_of(alloc, module_name, name)?;
    Ok(Box::new(alloc, pair)?)
}
