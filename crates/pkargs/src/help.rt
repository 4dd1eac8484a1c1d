//! The program's help texts.

/// The version of the program.
pub const VERSION: &str = "0.3.0.dev25";

/// The end of the help.
pub const STATUSES: &str = "\
FILE may be /dev/stdin, to read a pipe.

Exit status:
  0  yes, or done
  1  refused
  2  an invalid command line or list, or a file that cannot be read or written

The Python package explains more: `storklocker check` suggests what to do about a refusal, and \
`storklocker lint LIST` shows the line of a fault in a list.";

/// What the help of `check` says about its answer.
pub const CHECKED: &str = "\
The line says yes, with the number of bytes and imports, or where and why the pickle is refused. A \
refusal at 0 often means that FILE is not a pickle: `storklocker check`, of the Python package, \
says so. A table [substitutes] in LIST changes no answer: it names what a guard of the Python \
package loads in place of a listed name.";

/// What the help of `dis` says about its lines.
pub const LINES: &str = "\
Each line shows one instruction: its offset, its opcode in hexadecimal, its name, indented by two \
spaces for each open mark, and its argument. Lines and payloads are in double quotes; floats and \
long integers are bytes in hexadecimal, between < and >. The last line shows the highest protocol \
that an instruction needs, or where and why the pickle is refused.";

/// What the help of `imports` says about its lines.
pub const IMPORTS: &str = "\
Each line shows one import, in order: its module and its name in double quotes, or `unknown` if \
the pickle computes them. The last line counts them, or says where and why the pickle is refused.";

/// What the help of `optimize` says about its output.
pub const OPTIMIZED: &str = "\
OUT gets the same pickle without memo writes that nothing reads, its memo numbered from 0, and in \
one frame if it had any. The line shows its size before and after, or where and why the pickle is \
refused; OUT is then left unchanged. FILE and OUT may be the same.";

/// What the help of `json` says about its line.
pub const JSON: &str = "\
Plain data is None, booleans, 64-bit integers, text, lists, tuples, and dicts with text keys. For \
any other pickle the line says where and why it is refused.";
