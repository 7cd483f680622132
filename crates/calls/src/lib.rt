// What may be called at an enquiry, and what is answered. Uses `assignment` and `listing`.
#![tactic(auto)]

mod call;
mod refusal;
mod reply;

pub use call::Call;
pub use refusal::CallRefusal;
pub use reply::Reply;
