//! The picture: one SVG, with no script in it and no file beside it.

use crate::album::{Caption, Panel};
use crate::pageblock::draw_pageblock;
use crate::sheet::{BLOCK, CAPTION, MARGIN, Sheet};
use crate::sign::{SIGNS, Sign, count_among};
use crate::view::{Pageblock, View};
use script_core::{Reply, reply_text};
use std::io;
use std::io::Write;

/// The title, and the colors.
const STYLE: &str = "\
<title>A zone before its pages are moved, and after it</title>
<style>
text { font: 12px system-ui, sans-serif; fill: #24292f }
.name { font-weight: bold; font-size: 14px }
.told { font: 11px ui-monospace, monospace; fill: #57606a }
.number { text-anchor: end; fill: #57606a }
path { fill: none; stroke-width: 4; stroke-dasharray: 4 1 }
.free { stroke: #dde2e8 }
.page { stroke: #0072b2 }
.fixed { stroke: #1b1f24 }
.source { stroke: #d55e00 }
.target { stroke: #f0c000 }
.held { stroke: #009e73 }
rect { fill: none; stroke-width: 2 }
.whole { stroke: #009e73 }
.marked { stroke: #a0559a; stroke-dasharray: 6 3 }
.sheet { fill: #ffffff }
</style>
";

const FRAMES: &str =
    "A cell is a frame, and 512 frames are a pageblock. The lowest frame stands at the top left.";

/// Draws panels, from left to right and from top to bottom, below a legend.
pub fn draw<W: Write>(out: &mut W, panels: &[Panel]) -> io::Result<()> {
    let sheet = Sheet::of(panels, count_among(panels));
    begin_sheet(out, sheet.width(), sheet.height())?;
    draw_legend(out, panels, &sheet)?;
    draw_panels(out, panels, &sheet)?;
    writeln!(out, "</svg>")
}

/// Begins the picture: its size, its colors, its background, and what a cell is.
fn begin_sheet<W: Write>(out: &mut W, width: u32, height: u32) -> io::Result<()> {
    writeln!(
        out,
        r#"<svg xmlns="http://www.w3.org/2000/svg" role="img" width="{width}" height="{height}" viewBox="0 0 {width} {height}">"#
    )?;
    out.write_all(STYLE.as_bytes())?;
    writeln!(
        out,
        r#"<rect class="sheet" width="{width}" height="{height}" rx="6"/>"#
    )?;
    writeln!(out, r#"<text x="{MARGIN}" y="28">{FRAMES}</text>"#)
}

/// Draws each sign that is among the panels, and says what it means.
fn draw_legend<W: Write>(out: &mut W, panels: &[Panel], sheet: &Sheet) -> io::Result<()> {
    let mut index = 0_u8;
    for (sign, class, meaning) in &SIGNS {
        if sign.is_among(panels) {
            begin_at(out, sheet.sign(index))?;
            draw_sign(out, *sign, class, meaning)?;
            end(out)?;
            index = index.saturating_add(1);
        }
    }
    Ok(())
}

/// Draws a sign of the legend, and writes what it means.
fn draw_sign<W: Write>(out: &mut W, sign: Sign, class: &str, meaning: &str) -> io::Result<()> {
    match sign {
        Sign::Cell(_) => writeln!(out, r#"<path class="{class}" d="M0 2h15M0 7h15M0 12h15"/>"#)?,
        Sign::Whole | Sign::Marked => {
            writeln!(out, r#"<rect class="{class}" width="14" height="14"/>"#)?;
        }
    }
    writeln!(out, r#"<text x="21" y="11">{meaning}</text>"#)
}

/// Draws panels, each in its place.
fn draw_panels<W: Write>(out: &mut W, panels: &[Panel], sheet: &Sheet) -> io::Result<()> {
    let mut index = 0_u8;
    for panel in panels {
        begin_at(out, sheet.panel(index))?;
        draw_captions(out, &panel.captions)?;
        draw_zone(out, &panel.view, sheet.zone_top())?;
        end(out)?;
        index = index.saturating_add(1);
    }
    Ok(())
}

/// Writes captions, one below the other.
fn draw_captions<W: Write>(out: &mut W, captions: &[Caption]) -> io::Result<()> {
    let mut y = 0_u32;
    for caption in captions {
        begin_at(out, (0, y))?;
        draw_caption(out, caption)?;
        end(out)?;
        y = y.saturating_add(CAPTION);
    }
    Ok(())
}

/// Writes a caption: the command, and the reply below it.
fn draw_caption<W: Write>(out: &mut W, caption: &Caption) -> io::Result<()> {
    let Caption { title, reply } = caption;
    writeln!(out, r#"<text class="name" y="12">{title}</text>"#)?;
    writeln!(out, r#"<text class="told" y="27">{reply}</text>"#)
}

/// Draws a zone, so far below the captions: its pageblocks, and its counts.
fn draw_zone<W: Write>(out: &mut W, view: &View, top: u32) -> io::Result<()> {
    begin_at(out, (20, top))?;
    draw_pageblocks(out, &view.blocks)?;
    draw_counts(out, view)?;
    end(out)
}

/// Draws pageblocks, one below the other.
fn draw_pageblocks<W: Write>(out: &mut W, blocks: &[Pageblock]) -> io::Result<()> {
    for block in blocks {
        begin_at(out, (0, u32::from(block.number) * BLOCK))?;
        draw_pageblock(out, block)?;
        end(out)?;
    }
    Ok(())
}

/// Writes the counts of a zone below its pageblocks.
fn draw_counts<W: Write>(out: &mut W, view: &View) -> io::Result<()> {
    let bottom = view
        .blocks
        .len()
        .saturating_mul(BLOCK as usize)
        .saturating_add(8);
    let text = reply_text(&Reply::Info(view.info));
    let counts = text.as_str().trim_end();
    writeln!(out, r#"<text class="told" y="{bottom}">{counts}</text>"#)
}

/// Begins a part of the picture whose corner is at a place.
fn begin_at<W: Write>(out: &mut W, (x, y): (u32, u32)) -> io::Result<()> {
    writeln!(out, r#"<g transform="translate({x},{y})">"#)
}

/// Ends the part that began last.
fn end<W: Write>(out: &mut W) -> io::Result<()> {
    writeln!(out, "</g>")
}
