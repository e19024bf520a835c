use hg_base::Labels;
use label_writer::{LabelFault, labels_pieces, write_labels, write_pgm};
use std::alloc::{AllocError, Global};
use std::process::Abort;
use std::thread::Threads;

// These labels, each of 1 to the count.
fn labels_of(
    rt: &impl Abort,
    alloc: Global,
    rows: &[u32],
    count: u32,
) -> Result<Labels, AllocError> {
    assert!(rt; 1 <= rows.len());
    assert!(rt; rows.len() <= 1_048_576);
    let mut labels = Vec::with_capacity(alloc, rows.len())?;
    for &label in rows {
        assert!(rt; 1 <= label && label <= count);
        labels.push(label)?;
    }
    Ok(Labels::new(labels, count))
}

// The labels 1, 2, .. up to the count.
fn numbered(rt: &impl Abort, alloc: Global, count: u32) -> Result<Labels, AllocError> {
    let mut rows = Vec::with_capacity(alloc, count as usize)?;
    for label in 1..=count {
        rows.push(label)?;
    }
    labels_of(rt, alloc, &rows, count)
}

fn picture(
    rt: &impl Abort,
    alloc: Global,
    labels: &Labels,
    width: u32,
    height: u32,
) -> Result<Vec<u8>, LabelFault> {
    assert!(rt; 1 <= width && 1 <= height);
    assert!(rt; u64::from(width) * u64::from(height) == u64::from(labels.len()));
    write_pgm(alloc, labels, width, height)
}

fn assert_text(
    rt: &(impl Abort + Threads + Sync),
    alloc: Global,
    rows: &[u32],
    count: u32,
    report: &str,
) {
    let labels = labels_of(rt, alloc, rows, count).expect(rt, "ample memory");
    let text = write_labels(alloc, &labels).expect(rt, "ample memory");
    assert_eq!(rt; text.as_slice(), report.as_bytes());
    let pieces = labels_pieces(rt, alloc, &labels).expect(rt, "ample memory");
    let joined = pieces.joined(alloc).expect(rt, "ample memory");
    assert_eq!(rt; joined.as_slice(), report.as_bytes());
}

#[test]
fn texts(rt: HostRuntime) {
    let report = "labels 4 3\n0 1\n1 1\n2 2\n3 3\n";
    assert_text(&rt, rt.alloc(), &[1, 1, 2, 3], 3, report);
    let report = "labels 4 2\n0 1\n1 1\n2 2\n3 2\n";
    assert_text(&rt, rt.alloc(), &[1, 1, 2, 2], 2, report);
    let report = "labels 4 1\n0 1\n1 1\n2 1\n3 1\n";
    assert_text(&rt, rt.alloc(), &[1, 1, 1, 1], 1, report);
}

// How a picture of numbered labels begins and ends, and how many bytes it has.
fn assert_picture(
    rt: &impl Abort,
    alloc: Global,
    width: u32,
    height: u32,
    count: u32,
    front: &[u8],
    back: &[u8],
    length: usize,
) {
    let labels = numbered(rt, alloc, count).expect(rt, "ample memory");
    let bytes = picture(rt, alloc, &labels, width, height).expect(rt, "few labels");
    assert!(rt; bytes.starts_with(front), "{count}");
    assert!(rt; bytes.ends_with(back), "{count}");
    assert_eq!(rt; bytes.len(), length);
}

#[test]
fn pictures(rt: HostRuntime) {
    let all = b"P5\n2 2\n4\n\x01\x02\x03\x04";
    assert_picture(&rt, rt.alloc(), 2, 2, 4, all, b"\x03\x04", 13);
    let front = b"P5\n255 1\n255\n\x01\x02";
    assert_picture(&rt, rt.alloc(), 255, 1, 255, front, b"\xfe\xff", 268);
    let front = b"P5\n16 16\n256\n\x00\x01\x00\x02";
    assert_picture(
        &rt,
        rt.alloc(),
        16,
        16,
        256,
        front,
        b"\x00\xff\x01\x00",
        525,
    );
    let front = b"P5\n65535 1\n65535\n\x00\x01\x00\x02";
    assert_picture(
        &rt,
        rt.alloc(),
        65_535,
        1,
        65_535,
        front,
        b"\xff\xfe\xff\xff",
        131_087,
    );
}

#[test]
fn a_picture_of_too_many_labels(rt: HostRuntime) {
    let labels = numbered(&rt, rt.alloc(), 65_536).expect(&rt, "ample memory");
    let fault = picture(&rt, rt.alloc(), &labels, 65_536, 1).expect_err(
        &rt,
        "65,536 labels were accepted",
    );
    assert_eq!(rt; fault, LabelFault::TooManyLabels(65_536));
}
