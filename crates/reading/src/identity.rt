// The identity of a data block of kind 2: the value of EDF_DataBlockID.
ghost use Rattle.std.specs.Prelude.{◌≡◌, pos, option_map, Some};
ghost use Rattle.blocks.specs.Reading.{memory_of, identity_by, image_by, identity_of};

use blocks::Identity;
use text::number::whole_number;

// The memory: 1 where nothing follows the instance, or a point and a number from 2.
#[tactic(auto, unfolding(blocks::specs::Reading::memory_of))]
fn memory_of(l: &[u8]) -> Option<i64>
    ensures { result ≡ option_map pos (memory_of l.now) }
{
    match l {
        [] => Some(1),
        [b'.', number @ ..] => whole_number(number).filter(|&z| 2 <= z),
        _ => None,
    }
}

// An instance, and the memory that follows it.
fn with_memory(sequence: i64, instance: u8, l: &[u8]) -> Option<Identity>
    ensures { result ≡ identity_by (Some sequence) instance (memory_of l.now) }
{
    let memory = memory_of(l)?;
    Some(Identity {
        sequence,
        instance,
        memory,
    })
}

// By what follows `.Image.`.
#[tactic(auto, using(crate::proofs::IdentitySteps::prefix_there, crate::proofs::IdentitySteps::prefix_missing))]
fn instance_of(sequence: i64, l: &[u8]) -> Option<Identity>
    ensures { result ≡ image_by (Some sequence) (Some l.now) }
{
    if let Some(rest) = l.strip_prefix(b"Psd") {
        return with_memory(sequence, 1, rest);
    }
    with_memory(sequence, 2, l.strip_prefix(b"Error")?)
}

// The identity that a value stands for: `sequence.Image.instance`, or with `.memory`.
#[tactic(auto, unfolding(blocks::specs::Reading::identity_of), using(crate::proofs::IdentitySteps::point_inside, crate::proofs::IdentitySteps::prefix_there, crate::proofs::IdentitySteps::prefix_missing))]
pub fn identity_of(v: &[u8]) -> Option<Identity>
    ensures { result ≡ identity_of v.now }
{
    let point = scan::find(v, b'.', 0)?;
    let (sequence, rest) = v.split_at(point);
    instance_of(whole_number(sequence)?, rest.strip_prefix(b".Image.")?)
}
