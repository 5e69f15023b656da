// The role that a header gives its block. The slice is the file up to the header's `}`, and `from` the first byte of its body.
ghost use Rattle.std.specs.Prelude.{◌≡◌};
ghost use Rattle.blocks.specs.Judging.{unnamed, role_of};
ghost use Rattle.reading.specs.Entries.{entries_from};
ghost use Rattle.judging.specs.First.{named_role};

use blocks::{FileRules, Identity, Role};
use reading::entry::first_entry;
use reading::identity::identity_of;
use text::key::same_key;

// The role of a block with no identity.
fn unnamed(kind: u8) -> Role
    ensures { result ≡ unnamed kind }
{
    Role {
        kind,
        identity: Identity {
            sequence: 0,
            instance: 0,
            memory: 0,
        },
    }
}

// The role of a data block of kind 2: its first key is EDF_DataBlockID.
fn named_role(s: &[u8], from: usize) -> Option<Role>
    ensures { result ≡ named_role (entries_from s.now from) }
{
    let first = first_entry(s, from)?;
    if !same_key(first.key, b"edf_datablockid") {
        return None;
    }
    let identity = identity_of(first.value)?;
    Some(Role { kind: 1, identity })
}

// The role of a block in a file with rules; `first`: it is the file's first.
#[tactic(auto, unfolding(blocks::specs::Judging::role_of, crate::specs::First::named_role))]
pub fn role_of(s: &[u8], from: usize, rules: FileRules, first: bool) -> Option<Role>
    ensures { result ≡ role_of rules first (entries_from s.now from) }
{
    if rules.kind == 1 {
        Some(unnamed(1))
    } else if first && rules.expected != 0 {
        Some(unnamed(0))
    } else {
        named_role(s, from)
    }
}
