// A draft laid on a set of rules: each entry is a rule.
use entries::Draft;

mod rules;

/// Its draft is taken when it is laid, so nothing can be added any more.
#[derive(Drop)]
pub struct Folder<R> {
    draft: Draft,
    below: R,
}
