// Pages that are built byte by byte.
use page_file::PAGE_LEN;
use std::process::Abort;

/// A page that is built entry by entry. Its entries need not be valid.
#[derive(Drop)]
pub struct Draft {
    bytes: [u8; PAGE_LEN],
    count: u16,
    end: usize,
}

impl Draft {
    pub fn new() -> Draft {
        Draft {
            bytes: [0; PAGE_LEN],
            count: 0,
            end: 8,
        }
    }

    fn put(&mut self, rt: &impl Abort, bytes: &[u8]) {
        assert!(rt; self.end <= PAGE_LEN);
        assert!(rt; bytes.len() <= PAGE_LEN - self.end);
        self.bytes[self.end..self.end + bytes.len()].copy_from_slice(bytes);
        self.end += bytes.len();
    }

    /// One entry more.
    pub fn entry(&mut self, rt: &impl Abort, kind: u8, key: &[u8], text: &[u8], count: u64) {
        assert!(rt; key.len() <= 100);
        assert!(rt; text.len() <= 500);
        self.put(rt, &[kind]);
        self.put(rt, &(key.len() as u16).to_be_bytes());
        self.put(rt, &(text.len() as u16).to_be_bytes());
        self.put(rt, &count.to_be_bytes());
        self.put(rt, key);
        self.put(rt, text);
        self.count = self.count.saturating_add(1);
    }

    /// The page, with its head.
    pub fn page(&self, rt: &impl Abort, next: u32) -> [u8; PAGE_LEN] {
        assert!(rt; 8 <= self.end);
        assert!(rt; self.end <= PAGE_LEN);
        let mut bytes = self.bytes;
        bytes[..2].copy_from_slice(&self.count.to_be_bytes());
        bytes[2..4].copy_from_slice(&((self.end - 8) as u16).to_be_bytes());
        bytes[4..8].copy_from_slice(&next.to_be_bytes());
        bytes
    }
}
