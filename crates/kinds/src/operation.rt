// An operation of a transaction, a word of its list: its length and its direction.
ghost use Rattle.std.specs.Prelude.{◌≡◌};
ghost use Rattle.calls.specs.Pieces.{piece_of};

pub fn length(o: u32) -> u32
    ensures { result ≡ (piece_of o).size }
{
    fields::get(o, 0, 16)
}

pub fn is_read(o: u32) -> bool
    ensures { result ≡ (piece_of o).reads }
{
    fields::flag(o, 16)
}
