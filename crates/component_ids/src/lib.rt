//! Component identifiers and signature parameters of HTTP Message Signatures (RFC 9421 sections 2
//! to 2.4), and which fields are structured.
//!
//! ```text
//! let list = read_inner(alloc, br#"("@method" "date");created=1"#)?;
//! let params = read_params(alloc, &list)?;
//! params.ids.len()                      // 2
//! print_params(alloc, &params)?.bytes() // ("@method" "date");created=1
//! let mut types = Types::standard(alloc)?;
//! types.add(b"age", FieldKind::Item)?;
//! types.kind_of(b"age")                 // Some(FieldKind::Item)
//! types.kind_of(b"content-digest")      // Some(FieldKind::Dictionary)
//! ```
#![tactic(auto)]

mod equal;
mod fault;
mod id;
mod laws;
mod limit_laws;
mod params;
mod params_text;
mod print;
mod read_ids;
mod same;
mod scheme;
mod table;
mod types;

pub use fault::{BadReason, IdFault};
pub use id::{ComponentId, Ids};
pub use laws::{a_list_has_one_answer, sameness_is_tested};
pub use limit_laws::limits_are_these;
pub use params::{MAX_COMPONENTS, SigParams, copy_of_ids, is_string_key, read_params};
pub use params_text::{ParamsText, print_params};
pub use print::print_id;
pub use same::same_id;
pub use scheme::Scheme;
pub use table::has_param;
pub use types::{FieldKind, Types};
