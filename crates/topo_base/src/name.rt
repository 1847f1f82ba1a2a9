ghost use Rattle.std.specs.Prelude.{◌≡◌, IsTrue, IfOk, IfErr, OnOk, OnErr, false};
ghost use Rattle.std.specs.List.{list_all};
ghost use Rattle.topo_base.specs.Names.{is_letter, is_name, is_name_byte};

use crate::Memory;
use std::alloc::Global;
use std::marker::Model;

/// A name of 1 to 63 bytes: a lower-case letter, and then lower-case letters, digits or `_`.
/// Contracts see the list of its bytes.
#[derive(Debug, Drop)]
pub struct Name {
    bytes: Vec<u8>,
}

impl Model for Name {
    ghost use Rattle.std.specs.Prelude.{ℕ, List, IsTrue};
    ghost use Rattle.topo_base.specs.Names.{is_name};

    ghost Value = { List ℕ };

    ghost view = { λ n. n.bytes.items };

    ghost invariant = { λ n. IsTrue (is_name n.bytes.items) };
}

fn is_letter(byte: u8) -> bool
    ensures { result ≡ is_letter byte }
{
    byte.is_ascii_lowercase()
}

fn is_name_byte(byte: u8) -> bool
    ensures { result ≡ is_name_byte byte }
{
    is_letter(byte) || byte.is_ascii_digit() || byte == b'_'
}

fn are_name_bytes(bytes: &[u8]) -> bool
    ensures { result ≡ list_all is_name_byte bytes.now }
{
    bytes.iter().all(|byte| is_name_byte(*byte))
}

fn is_name(bytes: &[u8]) -> bool
    ensures { result ≡ is_name bytes.now }
{
    match bytes {
        [] => false,
        [first, rest @ ..] => is_letter(*first) && are_name_bytes(rest) && rest.len() <= 62,
    }
}

impl Name {
    /// The name of these bytes, or the bytes where they are no name.
    pub fn of(bytes: Vec<u8>) -> Result<Name, Vec<u8>>
        ensures name { IfOk result (λ n. n ≡ bytes.items) }
        ensures good { OnOk result (IsTrue (is_name bytes.items)) }
        ensures back { IfErr result (λ v. v ≡ bytes) }
        ensures bad { OnErr result (is_name bytes.items ≡ false) }
    {
        if is_name(&bytes) {
            Ok(Name { bytes })
        } else {
            Err(bytes)
        }
    }

    pub fn as_bytes(&self) -> &[u8]
        ensures bytes { result.now ≡ self.now }
        ensures good { IsTrue (is_name self.now) }
    {
        &self.bytes
    }

    /// The same name once more.
    pub fn copy(&self, alloc: Global) -> Result<Name, Memory>
        ensures { IfOk result (λ n. n ≡ self.now) }
    {
        let bytes = Vec::from_slice(alloc, &self.bytes)?;
        Ok(Name { bytes })
    }
}
