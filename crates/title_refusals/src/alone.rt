//! An examiner's asks at a desk, each a transaction of its own.

use crate::at_desk::{Plant, open_plant, tell_end};
use crate::deeds::{HALF, Sale, WHOLE, Wish};
use crate::parcels::Parcel;
use crate::telling::tell_reply;
use crate::wanted::Wanted;
use anyhow::Result;
use std::alloc::Global;
use title_trace::Reply;

const EXAMINER: u32 = 1;

fn sells(doc: u64, grantee: u32, units: u64, parcel: Parcel) -> Wish {
    Wish::Post(Sale {
        doc,
        grantee,
        units,
        parcel,
    })
}

// Serves an ask, and once more where it wanted memory.
fn serve(desk: &mut Plant, alloc: Global, wish: Wish, wanted: &mut Wanted) -> Result<Reply> {
    let reply = desk.serve_alone(EXAMINER, wish.ask(alloc, wanted)?);
    if let Reply::Memory = &reply {
        wanted.count();
        let again = wish.ask(alloc, wanted)?;
        return Ok(desk.serve_alone(EXAMINER, again));
    }
    Ok(reply)
}

// Serves asks, and tells each reply and whether the trees have no node too many; and what is left.
fn serve_all(
    rt: &impl Print,
    desk: &mut Plant,
    alloc: Global,
    wishes: &[Wish],
    wanted: &mut Wanted,
) -> Result<()> {
    for wish in wishes {
        let reply = serve(desk, alloc, *wish, wanted)?;
        tell_reply(rt, EXAMINER, &reply)?;
        println!(rt; "trees are tidy: {}", desk.store().is_tidy())?;
    }
    tell_end(rt, desk, alloc, wanted)
}

fn wishes() -> [Wish; 8] {
    [
        Wish::Sheet(Parcel::Quarter),
        sells(201, 1, HALF, Parcel::Corner),
        sells(202, 2, WHOLE, Parcel::Quarter),
        sells(201, 1, HALF, Parcel::AroundCorner),
        Wish::Sheet(Parcel::Quarter),
        Wish::Chain(Parcel::Quarter),
        sells(203, 3, HALF, Parcel::Quarter),
        Wish::Sheet(Parcel::Undeclared),
    ]
}

/// An examiner reads a quarter, posts in its corner and, by the same deed, around that, reads again, and is refused a post that the
/// grantor's title is too short for, one to nobody, and a sheet outside the plant.
pub fn tell<R: Print>(rt: &R, alloc: Global, wanted: &mut Wanted) -> Result<()> {
    let desk = &mut open_plant(alloc, wanted)?.desk;
    serve_all(rt, desk, alloc, &wishes(), wanted)
}
