// Lines as the documented form reads them.
use crate::lines::*;
use crate::names::*;
use conversion::kinds::{EntryKind, map_binding_type};
use std::test::Fail;

fn entry(line: &[u8]) -> Option<(u32, Option<u32>, u32, u32)> {
    match read_line(line) {
        Ok(Line::Entry(e)) => Some((e.binding, map_binding_type(e.kind), e.array, e.stages)),
        _ => None,
    }
}

fn layout(line: &[u8]) -> Option<(usize, usize, bool)> {
    match read_line(line) {
        Ok(
            Line::Layout {
                name,
                partially_bound,
            },
        ) => Some((name.start, name.end, partially_bound)),
        _ => None,
    }
}

// The first word that can't be read, counted from 0.
fn unreadable(line: &[u8]) -> Option<usize> {
    read_line(line).err().map(|unreadable| unreadable.word)
}

#[test]
fn lines(rt: HostRuntime) {
    assert!(rt; matches!(read_line(b" \t\r"), Ok(Line::Blank)));
    assert!(rt; matches!(read_line(b"# entry"), Ok(Line::Blank)));
    assert_eq!(rt; layout(b"layout head#x"), Some((7, 11, false)));
    assert_eq!(rt;
        layout(b"\tlayout  a partially-bound\r"),
        Some((9, 10, true))
    );
    assert_eq!(rt;
        entry(b"entry 7 uniform-buffer 0 vertex fragment"),
        Some((7, Some(6), 0, 3))
    );
    assert_eq!(rt;
        entry(b"entry 4294967295 external-texture 007"),
        Some((4294967295, None, 7, 0))
    );
    assert_eq!(rt;
        entry(b"entry 0 storage-buffer-dynamic 4294967295 512 closest-hit 3"),
        Some((0, Some(9), 4294967295, 771))
    );
}

#[test]
fn words(rt: HostRuntime) {
    assert_eq!(rt; unreadable(b"entries 0 sampler 0"), Some(0));
    assert_eq!(rt; unreadable(b"entry 4294967296 sampler 0"), Some(1));
    assert_eq!(rt; unreadable(b"entry 1 sampler-array 0"), Some(2));
    assert_eq!(rt; unreadable(b"entry 1 sampler 0x1"), Some(3));
    assert_eq!(rt; unreadable(b"entry 1 sampler 0 vertex pixel"), Some(5));
    assert_eq!(rt; unreadable(b"layout a partially-bound b"), Some(3));
}

// Each kind and each stage by its name, in key order and from bit 0.
#[test]
fn names(rt: HostRuntime) -> Result<(), Fail> {
    let types = [0, 2, 3, 6, 8, 7, 9, 1000150000];
    for (name, number) in KIND_NAMES.iter().zip(types.iter()) {
        let kind = kind_named(name.as_bytes()).ok_or("no kind")?;
        assert_eq!(rt; map_binding_type(kind), Some(*number));
    }
    assert!(rt;
        matches!(
            kind_named(b"external-texture"),
            Some(EntryKind::ExternalTexture)
        )
    );
    let bits = [1, 2, 4, 8, 16, 32, 64, 128, 256];
    for (name, bit) in STAGE_NAMES.iter().zip(bits.iter()) {
        assert_eq!(rt; stage_named(name.as_bytes()), Some(*bit));
    }
    assert_eq!(rt; stage_named(b"Vertex"), None);
    Ok(())
}

#[test]
fn printed(rt: HostRuntime) -> Result<(), Fail> {
    let unreadable = read_line(b"layout a partially-bound b")
        .err()
        .ok_or("readable")?;
    let text = format!(in rt.alloc(); "{unreadable}")?;
    assert_eq!(rt; text.as_str(), "word 4: expected the end of the line");
    Ok(())
}
