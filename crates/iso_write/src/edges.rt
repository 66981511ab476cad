//! What stands before the next piece of a text, and the space that parts the two.
ghost use Rattle.std.specs.Prelude.{◌≡◌, ℕ, List, ◌∷◌, ◌++◌, take, length, slice_index, true, ◌||◌, IfOk};
ghost use Rattle.iso_model.specs.Syntax.Pieces as pieces;
ghost use Rattle.iso_write.specs.Edges.{edge_behind, parts, behind, start, with_gap};

use iso_model::characters::{is_alphanumeric, is_graphic};
use std::alloc::AllocError;

/// What stands before the next piece.
#[derive(Clone, Copy)]
pub(crate) struct Edge {
    /// The last byte of the piece before; 0 where there is none.
    pub(crate) last: u8,
    /// Whether a space stands there in any case.
    pub(crate) gap: bool,
}

impl Edge {
    /// Where no piece stands before.
    pub(crate) fn start() -> Edge
        ensures { result ≡ start }
    {
        Edge::behind(b"")
    }

    /// Behind a piece of this text.
    fn behind(text: &[u8]) -> Edge
        ensures { result ≡ edge_behind text.now }
    {
        Edge {
            last: text.last().copied().unwrap_or(0),
            gap: false,
        }
    }

    /// With a space before the next piece.
    pub(crate) fn with_gap(self) -> Edge
        ensures { result ≡ with_gap self }
    {
        Edge { gap: true, ..self }
    }

    /// Whether the two neighbours are both letters, digits or `_`, both graphic, a digit and a quote, or both quotes.
    fn runs_into(self, first: u8) -> bool
        ensures { result ≡ pieces.run_together self.last first }
    {
        let last = self.last;
        is_alphanumeric(last) && is_alphanumeric(first)
            || is_graphic(last) && is_graphic(first)
            || (last.is_ascii_digit() || last == b'\'') && first == b'\''
    }

    /// Whether a space stands before a piece that begins with this byte.
    fn parts(self, first: u8) -> bool
        ensures { result ≡ parts self first }
    {
        self.gap || self.runs_into(first)
    }
}

/// Appends a piece, behind a space where one parts it from what stands before. The error is that memory was refused.
pub(crate) fn append_piece(out: &mut Vec<u8>, edge: Edge, text: &[u8]) -> Result<Edge, AllocError>
    ensures text { IfOk result (λ after. (ps : List pieces.Piece) → out.new.items ++ behind after ps ≡ out.old.items ++ behind edge (pieces.piece text.now ∷ ps)) }
    ensures kept { take (length out.old.items) out.new.items ≡ out.old.items }
{
    if edge.parts(text.first().copied().unwrap_or(0)) {
        out.push(b' ')?;
    }
    out.extend_from_slice(text)?;
    Ok(Edge::behind(text))
}
