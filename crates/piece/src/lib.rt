// The six kinds of piece that a board file describes, and that each is a part.
#![tactic(auto)]

mod dividers;
mod muxes;
mod piece;
mod plls;
mod rows;
mod shapes;
mod single;
mod style;

pub use shapes::{DivPiece, FixPiece, GatePiece, MuxPiece, Piece, PieceKind, PllPiece, SrcPiece};
pub use style::{DividerStyle, MuxStyle};
