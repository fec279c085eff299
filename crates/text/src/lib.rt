// Texts of `key=value` lines, each closed by LF: readers that take exactly the texts of their
// definitions, and a buffer that the same lines are written to. A key is handed in with its `=`.
#![tactic(auto)]

mod decimal; // read_decimal, read_signed
mod line; // line_end, find_value, read_decimal_line, read_signed_line, read_hex_line
mod write; // Buffer

pub use decimal::{read_decimal, read_signed};
pub use line::{Line, find_value, line_end, read_decimal_line, read_hex_line, read_signed_line};
pub use write::Buffer;
