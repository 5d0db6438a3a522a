// A page of text that grows at its end.
ghost use Rattle.std.specs.Prelude.{◌≡◌, [], ◌++◌, ◌+◌, ◌≤◌, length};
ghost use Rattle.rules.specs.Lines.{decimal};
ghost use Rattle.lines.specs.Pages.{page_of, text_of, length_told, page_told};

use super::Page;

// A page with no text.
pub fn blank() -> Page
    ensures exact { result ≡ page_of [] }
    ensures empty { text_of result ≡ [] }
    ensures len { result.len ≡ 0 }
{
    Page {
        len: 0,
        bytes: [0; 256],
    }
}

impl Page {
    // A text after the text of the page.
    pub(crate) fn append(self, text: &[u8]) -> Page
        requires { self.len + length text.now ≤ 256 }
        ensures exact { text_of result ≡ text_of self ++ text.now }
        ensures len { result.len ≡ self.len + length text.now }
    {
        let len = self.len + text.len();
        let mut bytes = self.bytes;
        bytes[self.len..len].copy_from_slice(text);
        Page { len, bytes }
    }

    // The digits of a number after the text of the page: those of its tenth part, and its last. No `to_string`, which needs the heap.
    pub(crate) fn append_number(self, n: u64) -> Page
        requires { self.len + length (decimal n) ≤ 256 }
        ensures exact { text_of result ≡ text_of self ++ decimal n }
        ensures len { result.len ≡ self.len + length (decimal n) }
    {
        let front = if n < 10 {
            self
        } else {
            self.append_number(n / 10)
        };
        front.append(&[b'0' + (n % 10) as u8])
    }
}

// A text at the head of a lent page; nothing where it does not fit. The number of bytes is what the C interface gives back, so that it is 0
// then, and no Option.
pub fn put_text(text: &[u8], page: &mut [u8]) -> usize
    ensures exact { result ≡ length_told text.now page.old }
    ensures page { page.new ≡ page_told text.now page.old }
    ensures kept { text.exit.now ≡ text.entry.now }
{
    let len = text.len();
    if page.len() < len {
        return 0;
    }
    page[..len].copy_from_slice(text);
    len
}
