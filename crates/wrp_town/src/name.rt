//! Names of streets and junctions, which contracts see as the lists of their bytes.
ghost use Rattle.std.specs.Prelude.{◌≡◌, ◌<◌, ◌↔◌, true, Some, None, if◌then◌else◌, length, is_some, IsTrue, IfOk, IfSome};
ghost use Rattle.std.specs.List.{list_all};
ghost use Rattle.std.specs.Str.{is_utf8};
ghost use Rattle.wrp_town.specs.Names.{is_plain, is_short_and_plain, has_bare_ends, is_name};

use crate::limits::NAME_LIMIT;
use std::alloc::{AllocError, Global};
use std::hash::{Hash, Hasher};
use std::marker::Model;

// The control byte above the other bytes of ASCII.
const DELETE: u8 = 0x7F;

/// A name: 1 to 64 bytes of UTF-8 without control bytes, and with no space at either end.
#[derive(Debug, Drop, Clone)]
pub struct Name {
    text: String,
}

impl Model for Name {
    ghost use Rattle.std.specs.Prelude.{◌≡◌, ℕ, List, true};
    ghost use Rattle.std.specs.String.{string_bytes};
    ghost use Rattle.wrp_town.specs.Names.{is_name};

    ghost Value = { List ℕ };

    ghost view = { λ n. string_bytes n.text };

    ghost invariant = { λ n. is_name (string_bytes n.text) ≡ true };
}

impl PartialEq for Name {
    ghost use Rattle.std.specs.Str.{bytes_eq};
    ghost use Rattle.std.specs.Cmp.{partial_equiv_from_equiv};
    ghost use Rattle.std.specs.Cmp.Lexicographic.{nat_list_eq_equiv};

    ghost eq = { bytes_eq };

    ghost laws = { partial_equiv_from_equiv nat_list_eq_equiv };

    fn eq(&self, other: &Name) -> bool {
        self.text == other.text
    }
}

impl Eq for Name {
    ghost use Rattle.std.specs.Cmp.Lexicographic.{nat_list_eq_equiv};

    ghost laws = { nat_list_eq_equiv };
}

impl Hash for Name {
    ghost use Rattle.std.specs.Hash as fed;
    ghost use Rattle.std.specs.Cmp.Rules.{hashing};
    ghost use Rattle.std.proofs.Common.{rules};

    ghost hash_input = { λ n. fed.str n };

    ghost respects_eq = { Prim.search (hashing, rules) };

    fn hash<H: Hasher>(&self, state: &mut H) {
        self.text.hash(state);
    }
}

impl Name {
    /// The name of these bytes, or `None` where they break the rule of names.
    ///
    /// # Errors
    ///
    /// Want of memory alone.
    pub fn new(alloc: Global, bytes: &[u8]) -> Result<Option<Name>, AllocError>
        ensures { IfOk result (λ name. name
            ≡ (if is_name bytes.now then Some bytes.now else None)) }
    {
        if !is_short_and_plain_text(bytes) || !has_bare_ends_of(bytes) {
            return Ok(None);
        }
        match as_text(bytes) {
            Some(text) => Ok(Some(Name {
                text: String::from_str(alloc, text)?,
            })),
            None => Ok(None),
        }
    }

    /// Lends the text.
    pub fn as_str(&self) -> &str
        ensures text { result.now ≡ self.now }
        ensures name { is_name self.now ≡ true }
    {
        self.text.as_str()
    }
}

fn is_plain_byte(byte: u8) -> bool
    ensures { result ≡ is_plain byte }
{
    byte >= b' ' && byte != DELETE
}

fn is_short_and_plain_text(bytes: &[u8]) -> bool
    ensures { result ≡ is_short_and_plain bytes.now }
{
    !bytes.is_empty() && bytes.len() <= NAME_LIMIT && are_plain(bytes)
}

fn are_plain(bytes: &[u8]) -> bool
    ensures { result ≡ list_all is_plain bytes.now }
{
    bytes.iter().all(|byte| is_plain_byte(*byte))
}

fn has_bare_ends_of(bytes: &[u8]) -> bool
    requires { 0 < length bytes.now }
    ensures { result ≡ has_bare_ends bytes.now }
{
    bytes[0] != b' ' && bytes[bytes.len() - 1] != b' '
}

// The bytes as a text, where they are UTF-8.
fn as_text(bytes: &[u8]) -> Option<&str>
    ensures test { is_some result ≡ is_utf8 bytes.now }
    ensures text { IfSome result (λ text. text.now ≡ bytes.now) }
{
    match str::from_utf8(bytes) {
        Ok(text) => Some(text),
        Err(_) => None,
    }
}

#[cfg(test)]
mod tests {
    use super::*;
    use std::test::Fail;

    fn is_same(a: &Name, b: &Name) -> bool
        ensures { IsTrue result ↔ (a.now ≡ b.now) }
    {
        a == b
    }

    #[test]
    fn names_keep_the_rule(rt: HostRuntime) -> Result<(), Fail> {
        for (bytes, want) in [
            ([b'a'; 64].as_slice(), true),
            ([b'a'; 65].as_slice(), false),
            (b"", false),
            (b" A", false),
            (b"A ", false),
            (b"\x1F", false),
            (b"\x7F", false),
            (b"\xFF", false),
        ] {
            let name = Name::new(rt.alloc(), bytes)?;
            assert_eq!(rt; name.is_some(), want);
            if let Some(name) = name {
                assert!(rt; is_same(&name, &name.clone()?));
            }
        }
        Ok(())
    }
}
