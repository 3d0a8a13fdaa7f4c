//! A pageblock of the picture.

use crate::cell::Cell;
use crate::sign::{SIGNS, Sign};
use crate::view::Pageblock;
use std::io;
use std::io::Write;

/// A cell's side, with the gap after it.
const SIDE: usize = 5;

/// How many cells stand in a line. A pageblock has eight lines.
const LINE: usize = 64;

/// Draws the cells of a pageblock, its number, a frame around it where it is whole or marked, and what is in it.
pub fn draw_pageblock<W: Write>(out: &mut W, block: &Pageblock) -> io::Result<()> {
    let number = block.number;
    writeln!(out, r#"<text class="number" x="-8" y="24">{number}</text>"#)?;
    draw_signs(out, block)?;
    write!(out, r#"<text x="330" y="24">"#)?;
    write_content(out, block)?;
    writeln!(out, "</text>")
}

/// Draws each sign that a pageblock has.
fn draw_signs<W: Write>(out: &mut W, block: &Pageblock) -> io::Result<()> {
    for (sign, class, _) in &SIGNS {
        if sign.is_in(block) {
            draw_sign(out, block, *sign, class)?;
        }
    }
    Ok(())
}

/// Draws the cells of a kind, or a frame around the pageblock.
fn draw_sign<W: Write>(out: &mut W, block: &Pageblock, sign: Sign, class: &str) -> io::Result<()> {
    match sign {
        Sign::Cell(kind) => draw_cells(out, &block.cells, kind, class),
        Sign::Whole | Sign::Marked => {
            writeln!(
                out,
                r#"<rect class="{class}" x="-3" y="-3" width="325" height="45"/>"#
            )
        }
    }
}

/// Writes what is in a pageblock.
fn write_content<W: Write>(out: &mut W, block: &Pageblock) -> io::Result<()> {
    match block.pages() {
        0 if block.is_all(Cell::Free) => write!(out, "whole"),
        0 if block.is_all(Cell::HandedOut) => write!(out, "handed out"),
        1 => write!(out, "1 page"),
        pages => write!(out, "{pages} pages"),
    }
}

/// Draws all cells of a kind as one path, with a dash for each cell.
fn draw_cells<W: Write>(out: &mut W, cells: &[Cell], kind: Cell, class: &str) -> io::Result<()> {
    write!(out, r#"<path class="{class}" d=""#)?;
    let mut y = 2_usize;
    for line in cells.chunks(LINE) {
        draw_line(out, line, kind, y)?;
        y = y.saturating_add(SIDE);
    }
    writeln!(out, "\"/>")
}

/// Draws the cells of a kind that are in a line, with a stroke for each run of them.
fn draw_line<W: Write>(out: &mut W, line: &[Cell], kind: Cell, y: usize) -> io::Result<()> {
    let mut x = 0_usize;
    for run in line.chunk_by(|a, b| a == b) {
        let width = run.len().saturating_mul(SIDE);
        if run.first() == Some(&kind) {
            draw_run(out, (x, y), width)?;
        }
        x = x.saturating_add(width);
    }
    Ok(())
}

/// Draws a stroke from a place on, so wide.
fn draw_run<W: Write>(out: &mut W, (x, y): (usize, usize), width: usize) -> io::Result<()> {
    write!(out, "M{x} {y}h{width}")
}
