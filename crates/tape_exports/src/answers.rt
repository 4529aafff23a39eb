// A tape's answers as numbers at the front of a lent slice.
ghost use Rattle.std.specs.Prelude.{◌≡◌};
ghost use Rattle.std.proofs.lemmas.List.Edits.{sets};
ghost use Rattle.tape_exports.specs.Numbers.{setup_numbers, call_numbers, found_numbers};

use numbers::put;
use tape::{Call, Found, Placed, Setup};

// Of a call which kind, the place after it, then the fields.
fn put_call(out: &mut [u64], placed: Placed)
    ensures { out.new ≡ sets out.old 0 (call_numbers placed.call placed.next) }
{
    let next = placed.next;
    match placed.call {
        Call::Datagram { at, len } => put(out, 0, &[1, next as u64, at as u64, len as u64]),
        Call::Play { side, samples } => {
            put(out, 0, &[2, next as u64, side.number(), samples as u64])
        }
        Call::Reset { side } => put(out, 0, &[3, next as u64, side.number(), 0]),
        Call::Set { side, settings: x } => {
            let numbers = [
                4,
                next as u64,
                side.number(),
                u64::from(x.adaptive),
                x.top as u64,
                x.range as u64,
                x.zoom as u64,
                x.smoothing as u64,
            ];
            put(out, 0, &numbers)
        }
        Call::Probe(t) => put(out, 0, &[5, next as u64, t.t1, t.t2, t.t3, t.t4]),
        Call::OneWay(t) => put(out, 0, &[6, next as u64, t.receive, t.send]),
        Call::Depth { samples, counts: k } => {
            let numbers = [
                7,
                next as u64,
                samples as u64,
                k.conceals,
                k.late,
                k.overflow,
                k.resyncs,
            ];
            put(out, 0, &numbers)
        }
        Call::TransmitDepth { samples } => put(out, 0, &[8, next as u64, samples as u64, 0]),
    }
}

// The same of what stands at a place; the end and a bad word, with its place, are kinds of their own.
pub fn put_found(out: &mut [u64], f: Found)
    ensures { out.new ≡ sets out.old 0 (found_numbers f) }
{
    match f {
        Ok(Some(placed)) => put_call(out, placed),
        Ok(None) => put(out, 0, &[9, 0, 0, 0]),
        Err(bad) => put(out, 0, &[10, bad.place as u64, 0, 0]),
    }
}

// The six sizes, then top, floor and range of A and of B.
pub fn put_setup(out: &mut [u64], x: Setup)
    ensures { out.new ≡ sets out.old 0 (setup_numbers x) }
{
    let a = x.a;
    let b = x.b;
    let estimates = [
        a.top as u64,
        a.floor as u64,
        a.range as u64,
        b.top as u64,
        b.floor as u64,
        b.range as u64,
    ];
    put(out, 0, &x.sizes.numbers());
    put(out, 6, &estimates);
}
