//! What is asked, and what is replied.
use http_page::{
    Content, Graph, Health, Line, Overview, PageRequest, Secondary, Status, asked_by, health_of,
    write_page, write_reply,
};
use std::alloc::{AllocError, Global};

/// Requests, and what they ask for (RFC 9112, 3).
const REQUESTS: [(&[u8], PageRequest); 8] = [
    (
        b"GET /metrics HTTP/1.1\r\nHost: a\r\n\r\n",
        PageRequest::Metrics,
    ),
    (b"GET /healthz HTTP/1.0\r\n\r\n", PageRequest::Health),
    (b"GET / HTTP/1.1\r\nHost: a\r\n\r\n", PageRequest::Page),
    (b"GET /metrics/ HTTP/1.1\r\n\r\n", PageRequest::Unknown),
    (b"POST /metrics HTTP/1.1\r\n\r\n", PageRequest::OtherMethod),
    (b"GET /metrics HTTP/1.1\r\nHost: a\r\n", PageRequest::More),
    (b"", PageRequest::More),
    (b"\x00\x01\x02 ", PageRequest::Bad),
];

/// How many requests ask for something else.
fn others() -> usize {
    let mut others = 0usize;
    for (octets, asked) in &REQUESTS {
        if asked_by(octets) != *asked {
            others = others.saturating_add(1);
        }
    }
    others
}

#[test]
fn asks(rt: HostRuntime) {
    assert_eq!(rt; others(), 0);
}

/// The reply 503 of a server whose store fails.
const FAILING: &str =
    "HTTP/1.1 503 Service Unavailable\r\nContent-Type: text/plain; charset=utf-8\r\nContent-Length: 14\r\nCache-Control: no-store\r\nConnection: close\r\n\r\nstore failing\n";

/// The reply of a server of this health.
fn reply_of(alloc: Global, health: Health) -> Result<Vec<u8>, AllocError> {
    let mut body = Vec::new(alloc);
    health.write(&mut body)?;
    let mut reply = Vec::new(alloc);
    write_reply(&mut reply, health.status(), Content::Text, body.as_slice())?;
    Ok(reply)
}

/// Whether the reply of a failing store is as it is to be, made once more where memory was refused.
fn is_failing(alloc: Global) -> Option<bool> {
    let health = health_of(false, true, &[u64::MAX], 0);
    let reply = match reply_of(alloc, health) {
        Ok(reply) => reply,
        Err(_) => reply_of(alloc, health).ok()?,
    };
    Some(reply.as_slice() == FAILING.as_bytes())
}

#[test]
fn replies_anew_after_refused_growth(rt: HostRuntime) {
    assert_eq!(rt; is_failing(rt.alloc()), Some(true));
}

// A thread that waits is never stuck, and one that has been busy for ten seconds isn't yet.
#[test]
fn finds_stuck_threads(rt: HostRuntime) {
    let found = [
        health_of(false, false, &[u64::MAX, 5_000], 15_000),
        health_of(false, false, &[u64::MAX, 5_000], 15_001),
        health_of(true, true, &[], 0),
    ];
    assert_eq!(rt; found, [Health::Healthy, Health::Stuck(1), Health::Ending]);
}

/// The page of the overview below.
const PAGE: &str =
    "<!DOCTYPE html>\n<html lang=\"en\"><head><meta charset=\"utf-8\"><meta http-equiv=\"refresh\" content=\"5\"><title>dnsd</title></head><body>\n<h1>example.test.</h1>\n<p>serial 7, records 13, up 61 s, store ok</p>\n<h2>requests per second, at most 40</h2>\n<svg viewBox=\"0 0 600 100\" width=\"900\"><polyline fill=\"none\" stroke=\"#06c\" points=\"0,100 5,50 10,0 \"/></svg>\n<h2>secondaries</h2>\n<table><tr><th>address</th><th>sent</th><th>answered</th><th>given up</th><th>serial</th><th>behind</th></tr>\n<tr><td>192.0.2.1:53</td><td>3</td><td>2</td><td>1</td><td>4294967295</td><td>8</td></tr>\n<tr><td>[2001:db8::1]:53</td><td>0</td><td>0</td><td>0</td><td>none</td></tr>\n</table>\n<h2>log</h2>\n<pre>\na &lt;b&gt; &amp; &quot;c&quot;\n</pre>\n</body></html>\n";

/// A secondary.
fn secondary(
    alloc: Global,
    address: &str,
    sent: u64,
    given_up: u64,
    serial: Option<u32>,
) -> Result<Secondary, AllocError> {
    let address = String::from_str(alloc, address)?;
    let answered = sent.saturating_sub(given_up);
    Ok(Secondary {
        address,
        sent,
        answered,
        given_up,
        serial,
    })
}

/// A line of the log.
fn line(alloc: Global, text: &str) -> Result<Line, AllocError> {
    let text = String::from_str(alloc, text)?;
    Ok(Line { text })
}

/// What the page shows.
fn overview(alloc: Global) -> Result<Overview, AllocError> {
    let mut graphs = Vec::new(alloc);
    let rates = vec![in alloc; 0, 20, 40]?;
    graphs.push(Graph {
        title: "requests per second",
        rates,
    })?;
    let mut secondaries = Vec::new(alloc);
    secondaries.push(secondary(alloc, "192.0.2.1:53", 3, 1, Some(u32::MAX))?)?;
    secondaries.push(secondary(alloc, "[2001:db8::1]:53", 0, 0, None)?)?;
    let mut lines = Vec::new(alloc);
    lines.push(line(alloc, "a <b> & \"c\"")?)?;
    Ok(Overview {
        zone: String::from_str(alloc, "example.test.")?,
        serial: 7,
        records: 13,
        uptime: 61,
        store: String::from_str(alloc, "ok")?,
        graphs,
        secondaries,
        lines,
    })
}

/// The page.
fn page_of(alloc: Global) -> Result<Vec<u8>, AllocError> {
    let overview = overview(alloc)?;
    let mut page = Vec::new(alloc);
    write_page(&mut page, &overview)?;
    Ok(page)
}

/// Whether the page is as it is to be, made once more where memory was refused.
fn is_page(alloc: Global) -> Option<bool> {
    let page = match page_of(alloc) {
        Ok(page) => page,
        Err(_) => page_of(alloc).ok()?,
    };
    Some(page.as_slice() == PAGE.as_bytes())
}

#[test]
fn writes_the_page_anew_after_refused_growth(rt: HostRuntime) {
    assert_eq!(rt; is_page(rt.alloc()), Some(true));
}
