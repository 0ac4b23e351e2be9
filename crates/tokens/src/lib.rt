//! The tokens of a script.
#![tactic(auto)]

mod comment;
mod error;
mod keyword;
mod law;
mod mark;
mod part;
mod position;
mod read_error;
mod reserved;
mod script;
mod symbol;
mod token;

pub use error::{ScriptError, ScriptErrorKind};
pub use keyword::Keyword;
pub use law::one_token_list;
pub use position::Position;
pub use read_error::{ReadError, fault};
pub use script::{MAX_SCRIPT_LEN, end_line, scan, scan_phrase};
pub use symbol::Symbol;
pub use token::{Token, Word};
