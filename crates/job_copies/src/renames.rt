//! Renames that are made of names.

ghost use Rattle.std.specs.Prelude.{◌↔◌, All, IsTrue};
ghost use Rattle.dsn_filter.specs.Dsn.{IsDsn};
ghost use Rattle.dsn_filter.specs.Rename.{IsPrefix, IsRename};

use dsn_filter::{Dsn, Qualifier, Rename};

/// Whether a rename is made of names: each that was read from a text is.
pub fn is_rename(rename: &Rename) -> bool
    ensures { IsTrue result ↔ IsRename rename.now }
{
    match rename {
        Rename::Keep => true,
        Rename::Prefix(prefix) => is_prefix(prefix),
        Rename::Listed(pairs) => are_names(pairs.as_slice()),
    }
}

/// Whether the old name and the new one of each pair are names.
fn are_names(pairs: &[(Dsn, Dsn)]) -> bool
    ensures { IsTrue result ↔ All (λ pair. IsDsn pair.0 × IsDsn pair.1) pairs.now }
{
    pairs.iter().all(|pair| is_pair(pair))
}

fn is_pair(pair: &(Dsn, Dsn)) -> bool
    ensures { IsTrue result ↔ (IsDsn pair.now.0 × IsDsn pair.now.1) }
{
    is_dsn(&pair.0) && is_dsn(&pair.1)
}

/// Whether it is one qualifier that is kept as a name.
fn is_prefix(name: &Dsn) -> bool
    ensures { IsTrue result ↔ IsPrefix name.now }
{
    if name.len > 44 {
        return false;
    }
    match Qualifier::read(name.as_slice()) {
        Ok(word) => word.to_name().is_same(name),
        Err(_) => false,
    }
}

/// Whether its characters are a name, and it is kept as they are.
fn is_dsn(name: &Dsn) -> bool
    ensures { IsTrue result ↔ IsDsn name.now }
{
    if name.len > 44 {
        return false;
    }
    match Dsn::read(name.as_slice()) {
        Ok(read) => read.is_same(name),
        Err(_) => false,
    }
}
