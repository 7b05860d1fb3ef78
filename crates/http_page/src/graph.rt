//! Rates over time, as a line.
ghost use Rattle.std.specs.Prelude.{◌≡◌, ◌<◌, ◌≤◌, ◌*◌, ◌^◌, ◌++◌, ◌∷◌, OnOk, length};
ghost use Rattle.http_page.specs.Graph.{most_of, height_of, point_text, points_text, title_text, graph_text, graph_front, graph_back};

use crate::html::put_escaped;
use metrics_text::{put_decimal, put_text};
use std::alloc::AllocError;
use std::marker::Model;

/// The height of a graph, in the units of its own.
const HEIGHT: u64 = 100;

/// How far apart the points of a graph are.
const STEP: u64 = 5;

/// Rates over time, the oldest first.
#[derive(Drop)]
pub struct Graph {
    /// What it shows.
    pub title: &'static str,
    /// How often it happened in each second, at equal distances.
    pub rates: Vec<u32>,
}

impl Model for Graph {
    ghost use Rattle.http_page.specs.Graph.{GraphOf};

    ghost Value = { GraphOf };

    ghost view = { λ g. record { title = g.title.now; rates = g.rates.items } };
}

impl Graph {
    /// Puts the graph at the end of a text: its title, the highest rate, and a line of SVG. The fault is a growth that was refused.
    pub(crate) fn write(&self, text: &mut Vec<u8>) -> Result<(), AllocError>
        ensures { OnOk result (text.new.items ≡ text.old.items ++ graph_text self.now) }
    {
        let rates = self.rates.as_slice();
        let most = most_of(rates);
        put_title(text, self.title, most)?;
        put_points(text, rates, most)?;
        put_text(text, graph_back())
    }
}

/// Puts a graph's title and its highest rate at the end of a text, and what stands before its points.
fn put_title(text: &mut Vec<u8>, title: &str, most: u32) -> Result<(), AllocError>
    ensures { OnOk result (text.new.items ≡ text.old.items ++ title_text title.now most) }
{
    put_text(text, "<h2>")?;
    put_escaped(text, title.as_bytes())?;
    put_text(text, ", at most ")?;
    put_decimal(text, u64::from(most))?;
    put_text(text, graph_front())
}

/// What stands between a graph's title and its points.
#[tactic(auto, unfolding(crate::specs::Graph::graph_front))]
fn graph_front() -> &'static str
    ensures { result.now ≡ graph_front }
{
    "</h2>\n<svg viewBox=\"0 0 600 100\" width=\"900\"><polyline fill=\"none\" stroke=\"#06c\" points=\""
}

/// What stands after a graph's points.
#[tactic(auto, unfolding(crate::specs::Graph::graph_back))]
fn graph_back() -> &'static str
    ensures { result.now ≡ graph_back }
{
    "\"/></svg>\n"
}

/// The highest rate; 0 where there is none.
fn most_of(rates: &[u32]) -> u32
    ensures { result ≡ most_of 0 rates.now }
{
    let mut most = 0u32;
    for rate in rates {
        most = most.max(*rate);
    }
    most
}

/// Puts the points of a graph at the end of a text, from the left to the right.
fn put_points(text: &mut Vec<u8>, rates: &[u32], most: u32) -> Result<(), AllocError>
    ensures { OnOk result (text.new.items ≡ text.old.items ++ points_text 0 most rates.now) }
{
    let mut x = 0u64;
    for rate in rates {
        put_point(text, x, *rate, most)?;
        x = x.saturating_add(STEP);
    }
    Ok(())
}

/// Puts a point at the end of a text.
fn put_point(text: &mut Vec<u8>, x: u64, rate: u32, most: u32) -> Result<(), AllocError>
    ensures { OnOk result (text.new.items ≡ text.old.items ++ point_text x most rate) }
{
    put_decimal(text, x)?;
    text.push(b',')?;
    put_decimal(text, HEIGHT.saturating_sub(height_of(rate, most)))?;
    text.push(b' ')?;
    Ok(())
}

/// The height of a rate above the base line, by the highest rate.
fn height_of(rate: u32, most: u32) -> u64
    ensures { result ≡ height_of most rate }
{
    HEIGHT * u64::from(rate) / u64::from(most.max(1))
}
