//! The links of edges: from where to where a mark is carried.
ghost use Rattle.std.specs.Prelude.{◌≡◌, ◌+◌, ◌++◌, [], ◌∷◌, suc, IfOk, OnOk, min};
ghost use Rattle.wf_assigned.specs.Links.{edge_links, index, link_of, links_of, place};

use crate::points::{Edge, Point};
use std::alloc::Global;
use wf_model::grow::add;
use wf_value::OutOfMemory;

/// From the place of one word to that of another, along the edge of this index. Where it stops, the names that are written on the edge
/// aren't carried.
#[derive(Clone, Copy)]
pub(crate) struct Link {
    pub(crate) from: usize,
    pub(crate) to: usize,
    pub(crate) edge: usize,
    pub(crate) stops: bool,
}

/// The number of a point.
fn index_of(point: Point) -> u64
    ensures { result ≡ index point }
{
    match point {
        Point::At(number) => u64::from(number) * 4,
        Point::HeadOf(number) => u64::from(number) * 4 + 1,
        Point::FailOf(number) => u64::from(number) * 4 + 2,
        Point::EndOf(number) => u64::from(number) * 4 + 3,
    }
}

/// Where the word of a point and a number stands.
pub(crate) fn place_of(count: usize, point: Point, number: usize) -> Result<usize, OutOfMemory>
    ensures { IfOk result (λ i. i ≡ place count point number) }
{
    let index = index_of(point) as usize;
    match index.checked_mul(count) {
        Some(first) => match first.checked_add(number) {
            Some(place) => Ok(place),
            None => Err(OutOfMemory),
        },
        None => Err(OutOfMemory),
    }
}

/// The links of edges, for so many numbers.
pub(crate) fn links_of(
    alloc: Global,
    count: usize,
    edges: &[Edge],
) -> Result<Vec<Link>, OutOfMemory>
    ensures { IfOk result (λ links. links.items ≡ links_of count 0 edges.now) }
{
    let mut links = Vec::new(alloc);
    for index in 0..edges.len() {
        add_links(&mut links, count, index, &edges[index])?;
    }
    Ok(links)
}

/// Adds the links of the edge of this index.
fn add_links(
    links: &mut Vec<Link>,
    count: usize,
    index: usize,
    edge: &Edge,
) -> Result<(), OutOfMemory>
    ensures { OnOk result (links.new.items
        ≡ links.old.items ++ edge_links count index edge.now count) }
{
    for number in 0..count {
        let link = link_of(count, index, edge, number)?;
        add(links, link)?;
    }
    Ok(())
}

/// The link of a number.
fn link_of(count: usize, index: usize, edge: &Edge, number: usize) -> Result<Link, OutOfMemory>
    ensures { IfOk result (λ l. l ≡ link_of count index edge.now number) }
{
    let least = number.min(edge.keeps as usize + 1);
    Ok(Link {
        from: place_of(count, edge.from, least)?,
        to: place_of(count, edge.to, number)?,
        edge: index,
        stops: (edge.depth as usize) < number,
    })
}
