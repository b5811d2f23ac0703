// Drafts and plans over any field, and square roots by Sze's method.
#![tactic(auto)]

mod begin;
pub mod call;
mod checks;
mod divide;
pub mod draft;
pub mod factor;
mod finish;
mod gathered;
mod holdings;
pub mod house;
pub mod plan;
mod root;
mod search;
mod seek;

pub use call::Call;
pub use checks::is_served;
pub use draft::Draft;
pub use factor::Factor;
pub use gathered::{Closed, Gathered, Open};
pub use house::{HOUSE, Row, house_row};
pub use plan::{Answer, Plan};
