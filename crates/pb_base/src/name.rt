//! Names of stations and tables, which take no memory.
ghost use Rattle.std.specs.Prelude.{◌≡◌, SomeIff, nat_eq};
ghost use Rattle.std.specs.Cmp.{partial_equiv_from_equiv};
ghost use Rattle.std.specs.Cmp.Lexicographic.{pointwise, nat_list_eq_equiv};
ghost use Rattle.std.specs.Cmp.Rules.{hashing};
ghost use Rattle.std.specs.Hash as fed;
ghost use Rattle.std.proofs.Common.{rules};
ghost use Rattle.pb_base.specs.Name.{IsName};

use std::hash::{Hash, Hasher};
use std::marker::Model;

/// The most bytes that a name has.
pub const NAME_MAX: usize = 64;

/// A name of 1 to 64 bytes. Contracts see it as its bytes; zeros follow them in the array.
#[derive(Clone, Copy, Debug)]
pub struct Name {
    bytes: [u8; NAME_MAX],
    len: u8,
}

impl Model for Name {
    ghost use Rattle.std.specs.Prelude.{ℕ, List, length, take};
    ghost use Rattle.pb_base.specs.Name.{IsPadded, padded};

    ghost Value = { List ℕ };

    ghost view = { λ n. take n.len n.bytes };

    ghost invariant = { λ n. IsPadded n.bytes n.len };

    ghost inverse = { λ bytes. record { bytes = padded bytes; len = length bytes } };
}

impl Name {
    /// The name of these bytes; `None` where they aren't 1 to 64.
    pub fn new(bytes: &[u8]) -> Option<Name>
        ensures { SomeIff result (IsName bytes.now) bytes.now }
    {
        if bytes.is_empty() || bytes.len() > NAME_MAX {
            return None;
        }
        let mut name = [0; NAME_MAX];
        name[..bytes.len()].copy_from_slice(bytes);
        Some(Name {
            bytes: name,
            len: bytes.len() as u8,
        })
    }

    /// The bytes of the name.
    pub fn bytes(&self) -> &[u8]
        ensures value { result.now ≡ self.now }
        ensures range { IsName self.now }
    {
        &self.bytes[..usize::from(self.len)]
    }
}

// Names compare and hash by their bytes, so that a map from names is one from lists of bytes.
impl PartialEq for Name {
    ghost eq = { pointwise nat_eq };

    ghost laws = { partial_equiv_from_equiv nat_list_eq_equiv };

    fn eq(&self, other: &Name) -> bool {
        self.bytes() == other.bytes()
    }
}

impl Eq for Name {
    ghost laws = { nat_list_eq_equiv };
}

impl Hash for Name {
    ghost hash_input = { fed.slice fed.u8 };

    ghost respects_eq = { Prim.search (hashing, rules) };

    fn hash<H: Hasher>(&self, state: &mut H) {
        self.bytes().hash(state);
    }
}
