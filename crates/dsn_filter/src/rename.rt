//! Renames of data sets.

ghost use Rattle.std.specs.Prelude.{◌≡◌, ℕ, ◌<◌, ◌≤◌, ◌+◌, ◌-◌, List, ◌∷◌, ◌++◌, length, replicate, IfSome, IfNone};
ghost use Rattle.dsn_filter.specs.declared.dsn.Dsn.{Dsn};
ghost use Rattle.dsn_filter.specs.Text.{dotted, qualifiers};
ghost use Rattle.dsn_filter.specs.Dsn.{text_of, qualifiers_of, IsDsn};
ghost use Rattle.dsn_filter.specs.Rename.{IsPrefix, IsRename, with_prefix, IsListed, Renames};

use crate::dsn::Dsn;
use crate::matching::first_part;
use ckd_image::Listed;
use ckd_image::text::put_over;

/// An old name with the new one, in order.
pub type Pairs = Listed<(Dsn, Dsn)>;

#[derive(Debug, Drop)]
pub enum Rename {
    Keep,
    /// One qualifier, which replaces the first of several, and is put before one alone.
    Prefix(Dsn),
    /// The first pair of the name says the new one.
    Listed(Pairs),
}

impl Rename {
    /// The new name, and none where it is over 44 characters.
    pub fn apply(&self, name: &Dsn) -> Option<Dsn>
        requires rename { IsRename self.now }
        requires name { IsDsn name.now }

        // The new name is a name, and is the one that the rename makes.
        ensures lawful { IfSome result IsDsn }
        ensures named { IfSome result (λ new. Renames self.now name.now (text_of new)) }

        // There is none only where it would be too long.
        ensures long { IfNone result ((text : List ℕ) × Renames self.now name.now text × (44 < length text)) }
    {
        match self {
            Rename::Keep => Some(*name),
            Rename::Prefix(prefix) => prefixed(prefix, name),
            Rename::Listed(pairs) => Some(listed(pairs.as_slice(), name)),
        }
    }
}

/// The name with this qualifier for the first of several, or before one alone.
fn prefixed(prefix: &Dsn, name: &Dsn) -> Option<Dsn>
    requires prefix { IsPrefix prefix.now }
    requires name { IsDsn name.now }
    ensures lawful { IfSome result IsDsn }
    ensures named { IfSome result (λ new. text_of new ≡ dotted (with_prefix (text_of prefix.now) (qualifiers_of name.now))) }
    ensures long { IfNone result (44 < length (dotted (with_prefix (text_of prefix.now) (qualifiers_of name.now)))) }
{
    let kept = kept_part(name.as_slice());
    let prefix = prefix.as_slice();
    if prefix.len() + 1 + kept.len() > 44 {
        return None;
    }
    Some(joined_by_dot(prefix, kept))
}

/// What stands behind a new first qualifier: all behind the first dot, or one qualifier.
fn kept_part(name: &[u8]) -> &[u8]
    ensures { (prefix : List ℕ) → dotted (with_prefix prefix (qualifiers name.now)) ≡ prefix ++ (46 ∷ result.now) }
{
    match first_part(name) {
        (_, Some(behind)) => behind,
        (_, None) => name,
    }
}

fn joined_by_dot(front: &[u8], behind: &[u8]) -> Dsn
    requires { length front.now + 1 + length behind.now ≤ 44 }
    ensures len { result.len ≡ length (front.now ++ (46 ∷ behind.now)) }
    ensures text { result.text ≡ (front.now ++ (46 ∷ behind.now)) ++ replicate (44 - length (front.now ++ (46 ∷ behind.now))) 0 }
{
    let mut text = [0; 44];
    put_over(&mut text, 0, front);
    put_over(&mut text, front.len(), b".");
    put_over(&mut text, front.len() + 1, behind);
    Dsn {
        len: (front.len() + 1 + behind.len()) as u8,
        text,
    }
}

/// The new name of the first pair whose old name this is, else the name.
fn listed(pairs: &[(Dsn, Dsn)], name: &Dsn) -> Dsn
    ensures { IsListed pairs.now name.now result }
{
    for (old, new) in pairs {
        if old.is_same(name) {
            return *new;
        }
    }
    *name
}
