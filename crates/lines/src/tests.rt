// A sink that has no way of its own to put a number.
ghost use Rattle.std.specs.Prelude.{◌≡◌, ◌+◌, ◌≤◌, length};
ghost use Rattle.lines.specs.Sinks.{Laid, page_laws};

use crate::sinks::{Page, Sink};
use std::test::Fail;

// A page to which only bytes are put.
#[derive(Drop)]
struct Plain<'a> {
    page: Page<'a>,
}

impl Sink for Plain<'_> {
    ghost fits = { λ s k. s.page.at + k ≤ length s.page.text.now };

    ghost put_gives = { λ s bs t. Laid s.page bs t.page };

    fn put(&mut self, bytes: &[u8]) {
        self.page.put(bytes);
    }

    ghost laws = { record {
      none = λ s. page_laws.none s.page;
      more = λ s t u. page_laws.more s.page t.page u.page;
      front = λ s. page_laws.front s.page;
      rest = λ s t. page_laws.rest s.page t.page;
    } };
}

#[test]
fn numbers_are_put_as_bytes() -> Result<(), Fail> {
    let mut text = [b' '; 20];
    let mut plain = Plain {
        page: Page {
            text: &mut text,
            at: 1,
        },
    };
    plain.put_number(0);
    plain.put_number(1048575);
    plain.put_number(4294967295);
    (text == *b" 010485754294967295 ")
        .then_some(())
        .ok_or("the text has other digits, or has them elsewhere")?;
    Ok(())
}
