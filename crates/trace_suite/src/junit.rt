//! What came of tests, as the XML of JUnit that continuous integration reads.

use std::alloc::{AllocError, Global};

/// What came of a test.
#[derive(Clone, Copy, PartialEq, Eq)]
pub enum CaseEnd {
    /// It is passed.
    Passed,
    /// Something differs.
    Failure,
    /// It wasn't made.
    Error,
}

/// A test of a file.
#[derive(Drop)]
struct TestCase {
    name: String,
    end: CaseEnd,
    told: Vec<u8>,
}

/// The tests of a run.
#[derive(Drop)]
pub struct TestCases {
    alloc: Global,
    cases: Vec<TestCase>,
}

/// A text of XML that is written piece by piece.
#[derive(Drop)]
pub struct Xml {
    pub bytes: Vec<u8>,
}

impl Xml {
    /// No text.
    pub fn new(alloc: Global) -> Xml {
        Xml {
            bytes: Vec::new(alloc),
        }
    }

    /// Puts a text behind it as it is.
    pub fn put(&mut self, text: &str) -> Result<(), AllocError> {
        self.bytes.extend_from_slice(text.as_bytes())
    }

    /// Puts a byte of a text behind it: what XML reserves by its name, and what it can't have as a question mark.
    fn put_byte(&mut self, byte: u8) -> Result<(), AllocError> {
        match byte {
            b'&' => self.put("&amp;"),
            b'<' => self.put("&lt;"),
            b'>' => self.put("&gt;"),
            b'"' => self.put("&quot;"),
            b'\n' | b' '..=b'~' => {
                self.bytes.push(byte)?;
                Ok(())
            }
            _ => self.put("?"),
        }
    }

    /// Puts bytes that may be no text behind it.
    pub fn put_bytes(&mut self, bytes: &[u8]) -> Result<(), AllocError> {
        for byte in bytes {
            self.put_byte(*byte)?;
        }
        Ok(())
    }

    /// Puts a name behind it, of which all letters are kept.
    pub fn put_name(&mut self, name: &str) -> Result<(), AllocError> {
        for byte in name.as_bytes() {
            match *byte {
                0x80.. => self.bytes.push(*byte)?,
                b'\n' => self.put("?")?,
                _ => self.put_byte(*byte)?,
            }
        }
        Ok(())
    }

    /// Puts a document behind it as it is.
    pub fn put_document(&mut self, document: &[u8]) -> Result<(), AllocError> {
        self.bytes.extend_from_slice(document)
    }

    /// Puts behind it what is told of a test, as an element of this name; its first line is its message.
    fn put_told(&mut self, element: &str, told: &[u8]) -> Result<(), AllocError> {
        let first = told.split(|byte| *byte == b'\n').next().unwrap_or(told);
        self.put("      <")?;
        self.put(element)?;
        self.put(" message=\"")?;
        self.put_bytes(first)?;
        self.put("\">")?;
        self.put_bytes(told)?;
        self.put("</")?;
        self.put(element)?;
        self.put(">\n")
    }

    /// Puts a test behind it.
    fn put_case(&mut self, case: &TestCase) -> Result<(), AllocError> {
        self.put("    <testcase classname=\"usbtrace\" name=\"")?;
        self.put_name(case.name.as_str())?;
        let element = match case.end {
            CaseEnd::Passed => return self.put("\"/>\n"),
            CaseEnd::Failure => "failure",
            CaseEnd::Error => "error",
        };
        self.put("\">\n")?;
        self.put_told(element, case.told.as_slice())?;
        self.put("    </testcase>\n")
    }
}

impl TestCases {
    /// No test.
    pub fn new(alloc: Global) -> TestCases {
        TestCases {
            alloc,
            cases: Vec::new(alloc),
        }
    }

    /// Adds a test of a file, and what is told of it.
    pub fn add(&mut self, name: &str, end: CaseEnd, told: &[u8]) -> Result<(), AllocError> {
        let name = String::from_str(self.alloc, name)?;
        let told = Vec::from_slice(self.alloc, told)?;
        self.cases.push(TestCase { name, end, told })?;
        Ok(())
    }

    /// How many tests came to this end.
    fn count(&self, end: CaseEnd) -> u64 {
        let mut count = 0u64;
        for case in self.cases.iter() {
            if case.end == end {
                count = count.saturating_add(1);
            }
        }
        count
    }

    /// Their text.
    pub fn text(&self) -> Result<Vec<u8>, AllocError> {
        let alloc = self.alloc;
        let mut xml = Xml::new(alloc);
        let (all, failures, errors) = (
            self.cases.len(),
            self.count(CaseEnd::Failure),
            self.count(CaseEnd::Error),
        );
        let suite = format!(in alloc;
            "  <testsuite name=\"usbtrace\" tests=\"{all}\" failures=\"{failures}\" errors=\"{errors}\">\n"
        )?;
        xml.put("<?xml version=\"1.0\" encoding=\"UTF-8\"?>\n<testsuites>\n")?;
        xml.put(suite.as_str())?;
        for case in self.cases.iter() {
            xml.put_case(case)?;
        }
        xml.put("  </testsuite>\n</testsuites>\n")?;
        let Xml { bytes } = xml;
        Ok(bytes)
    }
}
