// Lines of names, which agree byte for byte.
ghost use Rattle.text_map.specs.Reading.{NameAt};

// Reads a line of names, and returns the place past it.
pub fn read_name(text: &[u8], at: usize, name: &[u8]) -> Option<usize>
    ensures { NameAt name.now text.now at result }
{
    let rest = &text[at.min(text.len())..];
    if rest.starts_with(name) {
        Some(at + name.len())
    } else {
        None
    }
}
