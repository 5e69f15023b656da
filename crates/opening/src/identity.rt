// Whether a block's identity is that of one before.
ghost use Rattle.std.specs.Prelude.{◌≡◌};
ghost use Rattle.blocks.specs.Opening.{same_identity, repeats};

use blocks::Row;

#[tactic(auto, unfolding(blocks::specs::Opening::same_identity), using(crate::proofs::Searches::same_bits))]
pub fn same_identity(x: Row, y: Row) -> bool
    ensures { result ≡ same_identity x y }
{
    x.instance == y.instance && x.sequence == y.sequence && x.memory == y.memory
}

// Whether a row repeats the identity of one of the others. A row without an identity, whose instance is 0, repeats none.
pub fn repeats(rows: &[Row], row: Row) -> bool
    ensures { result ≡ repeats rows.now row }
{
    row.instance != 0 && rows.iter().any(|other| same_identity(*other, row))
}
