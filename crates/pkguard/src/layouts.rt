//! The layouts of arguments, for C that goes from one instruction to the next.
ghost use Rattle.std.specs.Prelude.{◌≡◌, ◌≢◌};
ghost use Rattle.pkops.specs.Spelling.{layout_at};
ghost use Rattle.pkops.specs.Table.{code_of};
ghost use Rattle.pkops.specs.declared.Op.{Op as SpecOp};
ghost use Rattle.pkguard.specs.Layouts.{layout_number};

use pkops::laws::one_code;
use pkops::{Layout, layout_of_op, op_of_byte};

/// The number of the layout of the argument of the opcode with this code: its number of bytes; 16
/// for each of its lines; or 64 and the number of bytes in its count. 0 if no opcode has the code.
#[unsafe(no_mangle)]
pub extern "C" fn pkguard_layout(code: u8) -> u32
    ensures known { (op : SpecOp) → code_of op ≡ code → result ≡ layout_number (layout_at op) }
    ensures unknown { ((op : SpecOp) → code_of op ≢ code) → result ≡ 0 }
{
    one_code();
    match op_of_byte(code) {
        Some(op) => layout_number(layout_of_op(op)),
        None => 0,
    }
}

/// The number of a layout.
fn layout_number(layout: Layout) -> u32
    ensures { result ≡ layout_number layout }
{
    match layout {
        Layout::Nothing => 0,
        Layout::U1 => 1,
        Layout::U2 => 2,
        Layout::I4 | Layout::U4 => 4,
        Layout::U8 | Layout::F8 => 8,
        Layout::Line(_) => 16,
        Layout::Pair(_) => 32,
        Layout::Counted(width, _) => 64 + width.size() as u32,
    }
}
