// Bytes behind a first byte that counts them: the columns of a table, and the wanted values of a clause.
ghost use Rattle.std.specs.Prelude.{◌≡◌, ◌<◌, true, false, [], length, drop, MatchOption};
ghost use Rattle.ruleformat.specs.Clauses.{clause_size, unfit_clause, wanted_bytes};

// There may be from one to so many.
const MAX_COUNT: usize = 16;

// The counted bytes, or those of them that are there, and what follows.
pub(crate) fn split_counted(bytes: &[u8]) -> Option<(&[u8], &[u8])>
    ensures { MatchOption result (bytes.now ≡ []) (λ p. (0 < length bytes.now) × (p.0.now ≡ wanted_bytes bytes.now) × (p.1.now ≡ drop (clause_size bytes.now) bytes.now)) }
{
    let (count, rest) = bytes.split_first()?;
    Some(rest.split_at(rest.len().min(usize::from(*count))))
}

// The same where they are all there, and no more than there may be.
pub(crate) fn split_whole(bytes: &[u8]) -> Option<(&[u8], &[u8])>
    ensures { MatchOption result (unfit_clause bytes.now ≡ true) (λ p. (unfit_clause bytes.now ≡ false) × (p.0.now ≡ wanted_bytes bytes.now) × (p.1.now ≡ drop (clause_size bytes.now) bytes.now)) }
{
    let (count, rest) = bytes.split_first()?;
    let count = usize::from(*count);
    if count == 0 || count > MAX_COUNT {
        return None;
    }
    rest.split_at_checked(count)
}
