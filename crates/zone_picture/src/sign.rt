use crate::album::Panel;
use crate::cell::Cell;
use crate::view::Pageblock;

/// A sign of the legend: the color of a cell, or a frame around a pageblock.
#[derive(Clone, Copy)]
pub enum Sign {
    Cell(Cell),
    Whole,
    Marked,
}

/// All signs, in the order of the legend, each with its class in the style sheet and what it means.
pub static SIGNS: [(Sign, &str, &str); 8] = [
    (Sign::Cell(Cell::Free), "free", "free frame"),
    (Sign::Cell(Cell::Page), "page", "page"),
    (Sign::Cell(Cell::Fixed), "fixed", "unmovable or pinned"),
    (Sign::Cell(Cell::Source), "source", "page being moved"),
    (Sign::Cell(Cell::Target), "target", "where it goes"),
    (Sign::Cell(Cell::HandedOut), "held", "handed out"),
    (Sign::Whole, "whole", "whole pageblock"),
    (Sign::Marked, "marked", "marked pageblock"),
];

/// How many signs these panels have.
pub fn count_among(panels: &[Panel]) -> usize {
    SIGNS
        .iter()
        .filter(|(sign, _, _)| sign.is_among(panels))
        .count()
}

impl Sign {
    /// Whether one of these panels has it.
    pub fn is_among(self, panels: &[Panel]) -> bool {
        panels.iter().any(|panel| panel.view.blocks.iter().any(|block| self.is_in(block)))
    }

    /// Whether a pageblock has it.
    pub fn is_in(self, block: &Pageblock) -> bool {
        match self {
            Sign::Cell(cell) => block.cells.contains(&cell),
            Sign::Whole => block.is_all(Cell::Free),
            Sign::Marked => block.marked,
        }
    }
}
