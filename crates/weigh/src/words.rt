use std::alloc::{AllocError, Global};

// The letters that a text lists, set apart by spaces; none where a part is no byte.
pub(crate) fn letters_of(heap: Global, text: &str) -> Result<Option<Vec<u8>>, AllocError> {
    let mut letters = Vec::new(heap);
    for part in text.split_whitespace() {
        let Ok(letter) = part.parse::<u8>() else {
            return Ok(None);
        };
        letters.push(letter)?;
    }
    Ok(Some(letters))
}
