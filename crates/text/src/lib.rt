// Items of a line of text: read from a part of the line, and made for one.
#![tactic(auto)]

mod controller_type;
mod decimal;
mod flag;
mod stretch;
mod word;

pub use controller_type::read_type;
pub use decimal::{Decimal, decimal_text};
pub use flag::{flag_digit, read_flag};
pub use stretch::end_of;
pub use word::{read_word, word_text};
