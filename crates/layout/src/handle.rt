// A handle and an object's header, each packed into one 64-bit word by shifts and masks.
// Every function takes any word: what does not fit its field is cut to the field's bits.
ghost use Rattle.std.specs.Prelude.{◌≡◌, ◌%◌, ◌^◌};
ghost use Rattle.layout.specs.Handle.{handle_of, offset_of, area_of, generation_of};
ghost use Rattle.layout.specs.Header.{header_of, slots_of, data_of};

// Word offset in bits 0 to 13, area in bits 14 to 19, generation in bits 20 to 63.
pub fn pack(offset: u64, area: u64, generation: u64) -> u64
    ensures { result ≡ handle_of (offset % 16384) (area % 64) (generation % 2 ^ 44) }
{
    generation << 20 | (area & 0x3f) << 14 | offset & 0x3fff
}

pub fn offset(handle: u64) -> u64
    ensures { result ≡ offset_of handle }
{
    handle & 0x3fff
}

pub fn area(handle: u64) -> u64
    ensures { result ≡ area_of handle }
{
    handle >> 14 & 0x3f
}

pub fn generation(handle: u64) -> u64
    ensures { result ≡ generation_of handle }
{
    handle >> 20
}

// Slots in bits 0 to 13, data words in bits 14 to 27, the rest 0.
pub fn header(slots: u64, words: u64) -> u64
    ensures { result ≡ header_of (slots % 16384) (words % 16384) }
{
    (words & 0x3fff) << 14 | slots & 0x3fff
}

pub fn slots(header: u64) -> u64
    ensures { result ≡ slots_of header }
{
    header & 0x3fff
}

// The same shift as an area of a handle has, of another word.
pub fn data_words(header: u64) -> u64
    ensures { result ≡ data_of header }
{
    header >> 14 & 0x3fff
}
