//! A check of reports that knows nothing of how they came about: it reads the lines, and replays
//! the requests in the order of their ranks on a plain map.

use flock_tool::trace_reader::{SureSource, Traces, read_traces};
use itoa::Buffer;
use map_history::{Book, Op, Reply, Request};
use std::alloc::{AllocError, Global};

/// The line of a request: its trace, its rank where it was served, and its printed reply.
#[derive(Clone, Copy)]
struct Row<'a> {
    trace: u32,
    rank: Option<usize>,
    reply: &'a str,
}

/// The number that a field is, without leading zeros.
fn number_of(field: &str) -> Option<usize> {
    let number = field.parse::<usize>().ok()?;
    if Buffer::new().format(number) == field {
        Some(number)
    } else {
        None
    }
}

/// The number behind this word on a line.
fn number_behind(word: &str, line: Option<&str>) -> Option<usize> {
    let (first, rest) = line?.split_once(' ')?;
    if first == word { number_of(rest) } else { None }
}

/// The row that a request's line is.
fn row_of(trace: u32, line: Option<&str>) -> Option<Row<'_>> {
    let (first, reply) = line?.split_once(' ')?;
    if first == "-" && reply == "unserved" {
        return Some(Row {
            trace,
            rank: None,
            reply,
        });
    }
    let rank = Some(number_of(first)?);
    Some(Row { trace, rank, reply })
}

/// Whether this is how the reply is printed.
fn is_printed(reply: Reply, text: &str) -> bool {
    match reply {
        Reply::New => text == "new",
        Reply::Dup => text == "dup",
        Reply::Val(value) => text.strip_prefix("val ") == Some(Buffer::new().format(value)),
        Reply::Gone => text == "gone",
        Reply::Absent => text == "none",
        Reply::Was(value) => text.strip_prefix("was ") == Some(Buffer::new().format(value)),
        Reply::Moved => text == "moved",
    }
}

/// The rows of a report, one for each request, and its last number. None where a line isn't what
/// stands in its place.
fn rows_of<'a>(
    alloc: Global,
    traces: &Traces,
    report: &'a str,
) -> Result<Option<(Vec<Row<'a>>, usize)>, AllocError> {
    let mut lines = report.split('\n');
    let mut rows = Vec::new(alloc);
    for trace in 0..traces.count {
        if number_behind("trace", lines.next()) != Some(trace as usize) {
            return Ok(None);
        }
        for request in traces.requests.as_slice() {
            if request.trace == trace {
                match row_of(trace, lines.next()) {
                    Some(row) => rows.push(row)?,
                    None => return Ok(None),
                }
            }
        }
    }
    let size = number_behind("final", lines.next());
    let is_whole = lines.next() == Some("") && lines.next().is_none();
    match size {
        Some(size) if is_whole => Ok(Some((rows, size))),
        _ => Ok(None),
    }
}

/// Whether of two rows, one behind the other, the later one may stand behind the earlier one: in
/// one trace ranks rise, and nothing is served behind an unserved request.
fn may_follow(earlier: &Row<'_>, later: &Row<'_>) -> bool {
    match (earlier.rank, later.rank) {
        _ if earlier.trace != later.trace => true,
        (_, None) => true,
        (None, Some(_)) => false,
        (Some(first), Some(second)) => first < second,
    }
}

/// The rows' places by their ranks. None where the ranks aren't 0, 1, 2 and so on, each once.
fn order_of(alloc: Global, rows: &[Row<'_>]) -> Result<Option<Vec<usize>>, AllocError> {
    let served = rows.iter().filter(|row| row.rank.is_some()).count();
    let mut places = vec![in alloc; None; served]?;
    for (number, row) in rows.iter().enumerate() {
        if let Some(rank) = row.rank {
            match places.get_mut(rank) {
                Some(place) if place.is_none() => *place = Some(number),
                _ => return Ok(None),
            }
        }
    }
    let mut order = Vec::new(alloc);
    for place in places {
        match place {
            Some(number) => order.push(number)?,
            None => return Ok(None),
        }
    }
    Ok(Some(order))
}

/// Whether a plain map that serves the requests in this order gives the printed replies, and holds
/// so many pairs in the end.
fn is_replayed(
    alloc: Global,
    requests: &[Request],
    rows: &[Row<'_>],
    order: &[usize],
    size: usize,
) -> Result<bool, AllocError> {
    let mut book = Book::new(alloc);
    for place in order {
        let (Some(request), Some(row)) = (requests.get(*place), rows.get(*place)) else {
            return Ok(false);
        };
        if !is_printed(book.apply(request.op)?, row.reply) {
            return Ok(false);
        }
    }
    Ok(book.len() == size)
}

/// Whether a report is legal for the requests of a text in the grammar.
pub fn is_legal(alloc: Global, text: &[u8], report: &str) -> Result<bool, AllocError> {
    let mut source = SureSource::new(text.to_vec(alloc)?, Vec::new(alloc));
    let Ok(traces) = read_traces(alloc, &mut source) else {
        return Ok(false);
    };
    let Some((rows, size)) = rows_of(alloc, &traces, report)? else {
        return Ok(false);
    };
    let Some(order) = order_of(alloc, &rows)? else {
        return Ok(false);
    };
    let rises = rows
        .iter()
        .zip(rows.iter().skip(1))
        .all(|(earlier, later)| may_follow(earlier, later));
    Ok(rises && is_replayed(alloc, traces.requests.as_slice(), &rows, &order, size)?)
}

/// The printed values of a report: the sum of those that its insertions put in, the trace of its last request that
/// isn't a `get`, and the sum of those that this trace reads behind that request. Nothing changes behind it: so where a
/// text's traces end with `get`s of all keys, and nothing is taken out or set, both sums are one.
#[derive(Clone, Copy)]
pub struct Sums {
    pub put_in: usize,
    pub trace: u32,
    pub read: usize,
}

/// The value that a request put in.
fn inserted(request: &Request, row: &Row<'_>) -> usize {
    match request.op {
        Op::Ins(_, value) if row.reply == "new" => value as usize,
        _ => 0,
    }
}

/// The value that a row of this trace read behind this rank.
fn read_behind(row: &Row<'_>, trace: u32, rank: usize) -> usize {
    match row.rank {
        Some(own) if row.trace == trace && rank < own => {
            number_behind("val", Some(row.reply)).unwrap_or(0)
        }
        _ => 0,
    }
}

/// The later one of two traces with a rank each: this one, or that of a request which was served and isn't a `get`.
fn later(last: Option<(u32, usize)>, request: &Request, row: &Row<'_>) -> Option<(u32, usize)> {
    match (request.op, row.rank, last) {
        (Op::Get(_), _, _) | (_, None, _) => last,
        (_, Some(rank), Some((_, before))) if rank < before => last,
        (_, Some(rank), _) => Some((row.trace, rank)),
    }
}

/// The sums of these requests and rows. None where each served request is a `get`.
fn summed(requests: &[Request], rows: &[Row<'_>]) -> Option<Sums> {
    let (mut put_in, mut last) = (0usize, None);
    for (number, row) in rows.iter().enumerate() {
        if let Some(request) = requests.get(number) {
            put_in = put_in.saturating_add(inserted(request, row));
            last = later(last, request, row);
        }
    }
    let (trace, rank) = last?;
    let mut read = 0usize;
    for row in rows {
        read = read.saturating_add(read_behind(row, trace, rank));
    }
    Some(Sums {
        put_in,
        trace,
        read,
    })
}

/// The sums of a report on a text in the grammar. None where a line isn't what stands in its place, or where each
/// served request is a `get`.
pub fn sums_of(alloc: Global, text: &[u8], report: &str) -> Result<Option<Sums>, AllocError> {
    let mut source = SureSource::new(text.to_vec(alloc)?, Vec::new(alloc));
    let Ok(traces) = read_traces(alloc, &mut source) else {
        return Ok(None);
    };
    let Some((rows, _)) = rows_of(alloc, &traces, report)? else {
        return Ok(None);
    };
    Ok(summed(traces.requests.as_slice(), &rows))
}

/// The check itself on one text, by hand: which reports it takes and which it refuses.
mod tests {
    use super::{is_legal, sums_of};
    use crate::program::{bytes_of, cut};
    use std::test::Fail;

    const TEXT: &str = "flock 1/trace/ins 5 70/get 5/trace/del 5/";

    const LEGAL: &str = "\
trace 0/0 new/1 val 70/trace 1/2 gone/final 0/
trace 0/0 new/2 none/trace 1/1 gone/final 0/
trace 0/1 new/2 val 70/trace 1/0 none/final 1/
trace 0/0 new/- unserved/trace 1/1 gone/final 0/
trace 0/- unserved/- unserved/trace 1/- unserved/final 0/
";

    const NOT_LEGAL: &str = "\
trace 0/0 new/1 val 70/trace 1/2 gone/final 1/
trace 0/0 new/1 val 71/trace 1/2 gone/final 0/
trace 0/0 new/1 none/trace 1/2 gone/final 0/
trace 0/1 new/0 none/trace 1/2 gone/final 0/
trace 0/0 new/1 val 70/trace 1/1 gone/final 0/
trace 0/0 new/1 val 70/trace 1/3 gone/final 0/
trace 0/- unserved/0 none/trace 1/1 none/final 0/
trace 0/0 new/1 val 70/trace 1/02 gone/final 0/
trace 0/0 new/1 val 70/trace 1/2 gone/final 0
trace 0/0 new/1 val 70/trace 1/2 gone/final 0//
trace 0/0 new/1 val 70/2 gone/trace 1/final 0/
trace 0/0 new/1 val 70/trace 1/final 0/
trace 0/0 new/1 val 70/trace 1/2 gone/trace 2/final 0/

";

    // Each row: what insertions put in, the trace of the last request that isn't a `get`, and what that trace reads
    // behind it; the text, and a report. In the second one a value was lost, in the third one it is there twice.
    const SUMS: &str = "\
10 0 10|flock 3/trace/ins 1 10/mov 1 2/get 1/get 2/|trace 0/0 new/1 moved/2 none/3 val 10/final 1/
10 0 0|flock 3/trace/ins 1 10/mov 1 2/get 1/get 2/|trace 0/0 new/1 moved/2 none/3 none/final 1/
10 0 20|flock 3/trace/ins 1 10/mov 1 2/get 1/get 2/|trace 0/0 new/1 moved/2 val 10/3 val 10/final 1/
10 1 10|flock 3/trace/ins 1 10/get 1/trace/ins 1 5/get 1/|trace 0/0 new/1 val 10/trace 1/2 dup/3 val 10/final 1/
15 1 15|flock 3/trace/ins 1 10/mov 1 2/get 2/get 1/trace/ins 1 5/get 1/get 2/|trace 0/0 new/1 moved/4 val 10/5 val 5/trace 1/2 new/3 val 5/6 val 10/final 2/
10 0 0|flock 3/trace/ins 1 10/mov 1 2/get 2/trace/get 2/|trace 0/0 new/2 moved/- unserved/trace 1/1 none/final 1/
none|flock 3/trace/get 1/trace/ins 1 5/|trace 0/0 none/trace 1/- unserved/final 0/
none|flock 3/trace/get 1/|trace 0/0 none/final/
";

    #[test]
    fn values_are_summed_up_behind_the_last_change(rt: HostRuntime) -> Result<(), Fail> {
        let alloc = rt.alloc();
        for row in SUMS.lines() {
            let (wanted, texts) = cut(row);
            let (text, report) = cut(texts);
            let (text, report) = (bytes_of(alloc, text)?, bytes_of(alloc, report)?);
            let sums = sums_of(alloc, &text, str::from_utf8(&report).unwrap_or(""))?;
            let found = match sums {
                Some(sums) => format!(in alloc; "{} {} {}", sums.put_in, sums.trace, sums.read)?,
                None => format!(in alloc; "none")?,
            };
            assert!(rt; found.as_str() == wanted, "{row}: {found}");
        }
        Ok(())
    }

    #[test]
    fn the_check_tells_legal_reports_from_others(rt: HostRuntime) -> Result<(), Fail> {
        let alloc = rt.alloc();
        let text = bytes_of(alloc, TEXT)?;
        for (reports, wanted) in [(LEGAL, true), (NOT_LEGAL, false)] {
            for row in reports.lines() {
                let report = bytes_of(alloc, row)?;
                let report = str::from_utf8(&report).unwrap_or("");
                assert!(rt; is_legal(alloc, &text, report)? == wanted, "{row}");
            }
        }
        Ok(())
    }
}
