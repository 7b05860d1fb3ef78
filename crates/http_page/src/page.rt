//! The page for a person.
ghost use Rattle.std.specs.Prelude.{◌≡◌, ◌++◌, ◌-◌, OnOk, length, drop, flat_map};
ghost use Rattle.http_page.specs.Page.{page_text, title_text, zone_text, state_text, table_text, table_front, table_back, secondary_text, serial_cells, number_cell, line_text, page_front, page_back, behind};
ghost use Rattle.http_page.specs.Graph.{graph_text};

use crate::graph::Graph;
use crate::html::put_escaped;
use crate::overview::{Line, Overview, Secondary};
use metrics_text::{put_decimal, put_text};
use std::alloc::AllocError;

/// The most lines of the log that the page shows.
const MAX_LINES: usize = 20;

/// Puts the page at the end of a text: the zone, its state, graphs, the secondaries, and the last twenty lines of the log. It loads itself
/// again each five seconds, and has no script and names no other resource. The fault is a growth that was refused; the text then ends
/// anywhere.
pub fn write_page(text: &mut Vec<u8>, overview: &Overview) -> Result<(), AllocError>
    ensures { OnOk result (text.new.items ≡ text.old.items ++ page_text overview.now) }
{
    put_title(text, overview.zone.as_str())?;
    put_state(text, overview)?;
    put_graphs(text, overview.graphs.as_slice())?;
    put_table(text, overview.serial, overview.secondaries.as_slice())?;
    put_lines(text, overview.lines.as_slice())?;
    put_text(text, page_back())
}

/// Puts what stands before a page's body at the end of a text, and the zone's name.
fn put_title(text: &mut Vec<u8>, zone: &str) -> Result<(), AllocError>
    ensures { OnOk result (text.new.items ≡ text.old.items ++ title_text zone.now) }
{
    put_text(text, page_front())?;
    put_escaped(text, zone.as_bytes())?;
    put_text(text, "</h1>\n")
}

/// What stands before the zone's name.
#[tactic(auto, unfolding(crate::specs::Page::page_front))]
fn page_front() -> &'static str
    ensures { result.now ≡ page_front }
{
    "<!DOCTYPE html>\n<html lang=\"en\"><head><meta charset=\"utf-8\"><meta http-equiv=\"refresh\" content=\"5\"><title>dnsd</title></head><body>\n<h1>"
}

/// What stands after the lines of the log.
#[tactic(auto, unfolding(crate::specs::Page::page_back))]
fn page_back() -> &'static str
    ensures { result.now ≡ page_back }
{
    "</pre>\n</body></html>\n"
}

/// Puts the state of the zone, the server and the store at the end of a text.
fn put_state(text: &mut Vec<u8>, overview: &Overview) -> Result<(), AllocError>
    ensures { OnOk result (text.new.items ≡ text.old.items ++ state_text overview.now) }
{
    put_zone(text, overview.serial, overview.records)?;
    put_text(text, ", up ")?;
    put_decimal(text, overview.uptime)?;
    put_text(text, " s, store ")?;
    put_escaped(text, overview.store.as_bytes())?;
    put_text(text, "</p>\n")
}

/// Puts the state of the zone at the end of a text.
fn put_zone(text: &mut Vec<u8>, serial: u32, records: u64) -> Result<(), AllocError>
    ensures { OnOk result (text.new.items ≡ text.old.items ++ zone_text serial records) }
{
    put_text(text, "<p>serial ")?;
    put_decimal(text, u64::from(serial))?;
    put_text(text, ", records ")?;
    put_decimal(text, records)
}

/// Puts graphs at the end of a text.
fn put_graphs(text: &mut Vec<u8>, graphs: &[Graph]) -> Result<(), AllocError>
    ensures { OnOk result (text.new.items ≡ text.old.items ++ flat_map graph_text graphs.now) }
{
    for graph in graphs {
        graph.write(text)?;
    }
    Ok(())
}

/// Puts the table of secondaries at the end of a text.
fn put_table(text: &mut Vec<u8>, serial: u32, secondaries: &[Secondary]) -> Result<(), AllocError>
    ensures { OnOk result (text.new.items ≡ text.old.items ++ table_text serial secondaries.now) }
{
    put_text(text, table_front())?;
    put_secondaries(text, serial, secondaries)?;
    put_text(text, table_back())
}

/// What stands before the first secondary.
#[tactic(auto, unfolding(crate::specs::Page::table_front))]
fn table_front() -> &'static str
    ensures { result.now ≡ table_front }
{
    "<h2>secondaries</h2>\n<table><tr><th>address</th><th>sent</th><th>answered</th><th>given up</th><th>serial</th><th>behind</th></tr>\n"
}

/// What stands between the last secondary and the first line of the log.
#[tactic(auto, unfolding(crate::specs::Page::table_back))]
fn table_back() -> &'static str
    ensures { result.now ≡ table_back }
{
    "</table>\n<h2>log</h2>\n<pre>\n"
}

/// Puts a row for each secondary at the end of a text.
fn put_secondaries(
    text: &mut Vec<u8>,
    serial: u32,
    secondaries: &[Secondary],
) -> Result<(), AllocError>
    ensures { OnOk result (text.new.items ≡ text.old.items ++ flat_map (secondary_text serial) secondaries.now) }
{
    for secondary in secondaries {
        put_secondary(text, serial, secondary)?;
    }
    Ok(())
}

/// Puts a secondary's row at the end of a text.
fn put_secondary(text: &mut Vec<u8>, serial: u32, secondary: &Secondary) -> Result<(), AllocError>
    ensures { OnOk result (text.new.items ≡ text.old.items ++ secondary_text serial secondary.now) }
{
    put_text(text, "<tr><td>")?;
    put_escaped(text, secondary.address.as_bytes())?;
    put_text(text, "</td>")?;
    put_cell(text, secondary.sent)?;
    put_cell(text, secondary.answered)?;
    put_cell(text, secondary.given_up)?;
    put_serial(text, serial, secondary.serial)
}

/// Puts a cell with a number at the end of a text.
fn put_cell(text: &mut Vec<u8>, number: u64) -> Result<(), AllocError>
    ensures { OnOk result (text.new.items ≡ text.old.items ++ number_cell number) }
{
    put_text(text, "<td>")?;
    put_decimal(text, number)?;
    put_text(text, "</td>")
}

/// Puts the cells of a secondary's serial and of how far it is behind the zone's at the end of a text, and the row's end.
fn put_serial(text: &mut Vec<u8>, zone: u32, serial: Option<u32>) -> Result<(), AllocError>
    ensures { OnOk result (text.new.items ≡ text.old.items ++ serial_cells zone serial) }
{
    let Some(serial) = serial else {
        return put_text(text, "<td>none</td></tr>\n");
    };
    put_cell(text, u64::from(serial))?;
    put_cell(text, u64::from(behind(zone, serial)))?;
    put_text(text, "</tr>\n")
}

/// How far a serial is behind a zone's (RFC 1982, 3).
fn behind(zone: u32, serial: u32) -> u32
    ensures { result ≡ behind zone serial }
{
    zone.wrapping_sub(serial)
}

/// Puts the last twenty of the lines of the log at the end of a text.
fn put_lines(text: &mut Vec<u8>, lines: &[Line]) -> Result<(), AllocError>
    ensures { OnOk result (text.new.items ≡ text.old.items ++ flat_map line_text (drop (length lines.now - 20) lines.now)) }
{
    let past = lines.len().saturating_sub(MAX_LINES);
    put_all_lines(text, &lines[past..])
}

/// Puts lines of the log at the end of a text.
fn put_all_lines(text: &mut Vec<u8>, lines: &[Line]) -> Result<(), AllocError>
    ensures { OnOk result (text.new.items ≡ text.old.items ++ flat_map line_text lines.now) }
{
    for line in lines {
        put_escaped(text, line.text.as_bytes())?;
        text.push(b'\n')?;
    }
    Ok(())
}
