//! The faults of an HCL text as data: where the reader stopped, what it expected there and which brackets are open;
//! every fault of binding; the definitions of names. `fault_report` makes sentences of them.
#![tactic(auto)]

mod binding;
mod brackets;
mod cases;
mod expected;
mod kinds;
mod places;
mod stop;
mod tokens;

pub use binding::{ItemFault, is_defined_by, item_faults, law_of_first_faults, missing_names};
pub use brackets::open_brackets;
pub use cases::{definition_name, item_start, token_text};
pub use expected::{FOLLOW_KINDS, expected_kinds, law_of_expected};
pub use kinds::{TokenKind, kind_of, sample};
pub use places::{TextPlace, place_at};
pub use stop::{Stopped, law_of_fronts, stop_in};
pub use tokens::{TokenAt, token_list};
