// Fingerprints of bytes that come in pieces, by RFC 1321.
use crate::digests::DIGESTS;
use med_base::{Fingerprint, Flow, read_md5};

// Adds a piece, and tells whether the size grew by the length of the piece.
fn is_added(flow: &mut Flow, piece: &[u8]) -> bool {
    let size = flow.size();
    let more = piece.len() as u64;
    if u64::MAX - size < more {
        return false;
    }
    flow.add(piece);
    flow.size() == size + more
}

fn of_two_pieces(first: &[u8], second: &[u8]) -> Option<Fingerprint> {
    let mut flow = Flow::new();
    if is_added(&mut flow, first) && is_added(&mut flow, second) {
        Some(flow.end())
    } else {
        None
    }
}

// The fingerprint of pieces of one byte, with an empty piece before each.
fn of_bytes(bytes: &[u8]) -> Option<Fingerprint> {
    let mut flow = Flow::new();
    for piece in bytes.chunks(1) {
        if !is_added(&mut flow, &[]) || !is_added(&mut flow, piece) {
            return None;
        }
    }
    Some(flow.end())
}

// Whether the bytes have this fingerprint byte by byte, and cut in two at each place, ends too.
fn is_told_in_pieces(bytes: &[u8], whole: Fingerprint) -> bool {
    for at in 0..bytes.len() + 1 {
        let (first, second) = bytes.split_at(at);
        if of_two_pieces(first, second) != Some(whole) {
            return false;
        }
    }
    of_bytes(bytes) == Some(whole)
}

fn has_digest_in_pieces(row: &str) -> Option<bool> {
    let (text, digest) = row.split_once('|')?;
    let whole = Fingerprint {
        size: text.len() as u64,
        md5: read_md5(digest).ok()?,
    };
    Some(is_told_in_pieces(text.as_bytes(), whole))
}

#[test]
fn pieces_have_the_digests_of_the_rfc(rt: HostRuntime) {
    for row in DIGESTS.split('\n') {
        assert_eq!(rt; has_digest_in_pieces(row), Some(true), "at {row}");
    }
}

const LONG: &str = "\
ABCDEFGHIJKLMNOPQRSTUVWXYZabcdefghijklmnopqrstuvwxyz0123456789+/\
zyxwvutsrqponmlkjihgfedcbaZYXWVUTSRQPONMLKJIHGFEDCBA9876543210/+";

// A row is a size: the first so many bytes of the long text.
fn has_one_fingerprint(row: &str) -> Option<bool> {
    let bytes = LONG.as_bytes().get(..row.parse::<usize>().ok()?)?;
    Some(is_told_in_pieces(bytes, Fingerprint::of(bytes)))
}

// A block of MD5 has 64 bytes, the last 8 of the last block being the length of the message.
const SIZES: &str = "0\n1\n55\n56\n63\n64\n65\n127\n128";

#[test]
fn pieces_have_the_fingerprint_of_the_whole(rt: HostRuntime) {
    for row in SIZES.split('\n') {
        assert_eq!(rt; has_one_fingerprint(row), Some(true), "at {row}");
    }
}

#[test]
fn no_piece_is_the_fingerprint_of_no_bytes(rt: HostRuntime) {
    let flow = Flow::new();
    assert_eq!(rt; flow.size(), 0);
    assert_eq!(rt; flow.end(), Fingerprint::of(&[]));
}
