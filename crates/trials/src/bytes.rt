// The bytes that are fed.
use crate::MOST_BYTES;
use crate::numbers::Numbers;

pub(crate) fn low(v: u16) -> u8 {
    v.to_le_bytes()[0]
}

// The twelve bytes of a record.
pub(crate) fn record_of(kind: u16, id: u16, fields: [u16; 4]) -> [u8; 12] {
    let id = id.to_le_bytes();
    let a = fields[0].to_le_bytes();
    let b = fields[1].to_le_bytes();
    let c = fields[2].to_le_bytes();
    let d = fields[3].to_le_bytes();
    [
        low(kind),
        0,
        id[0],
        id[1],
        a[0],
        a[1],
        b[0],
        b[1],
        c[0],
        c[1],
        d[0],
        d[1],
    ]
}

pub(crate) fn bytes_of(n: &Numbers) -> [u8; MOST_BYTES] {
    std::array::from_fn(|k| low(n.at(k)))
}
