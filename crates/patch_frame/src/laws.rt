//! Laws of the formats. Each is the contract of a function that does nothing: who calls it may rest on the law.
ghost use Rattle.std.specs.Prelude.{◌≡◌, ◌<◌, ◌≤◌, ◌^◌, ◌+◌, ◌-◌, ◌*◌, ◌/◌, ◌%◌, ◌++◌, ℕ, List, [], Option, Ok, length, min};
ghost use Rattle.patch_model.specs.declared.blocks.TheConstants.{BLOCK};
ghost use Rattle.patch_frame.specs.declared.geometries.Format.{Format as FormatFields};
ghost use Rattle.patch_frame.specs.declared.geometries.Format.TheVariants.{Two};
ghost use Rattle.patch_frame.specs.declared.framing.TheConstants.{MAX_KEY, MAX_VALUE, KEY_START, OVERHEAD, MIN_FRAME};
ghost use Rattle.patch_frame.specs.declared.pointers.TheConstants.{MAX_POINTER, POINTER_BYTES};
ghost use Rattle.patch_frame.specs.declared.slots.TheConstants.{SLOT_BYTES, SLOT_KEY_START, MAX_FRAME};
ghost use Rattle.patch_frame.specs.declared.geometries.Geometry.{Geometry as GeometryFields};
ghost use Rattle.patch_frame.specs.declared.pointers.Pointer.{Pointer as PointerFields};
ghost use Rattle.patch_frame.specs.Field.{AreBytes};
ghost use Rattle.patch_frame.specs.Frame.{Content, Fits, spelling, length_of, frame_at};
ghost use Rattle.patch_frame.specs.Geometry.{IsFormat, IsGeometry, value_limit, longest_frame, largest_pointer, extent_blocks, first_block, pointer_block, block_count, slot_count, slot_block, slot_start};
ghost use Rattle.patch_frame.specs.Pointer as pointer;
ghost use Rattle.patch_frame.specs.Run.{run, AllFit};
ghost use Rattle.patch_frame.specs.Slot as slot;
ghost use Rattle.patch_frame.specs.Superblock as superblock;

// Sizes and limits.

/// The sizes and places that all else names by their constants, in numbers.
pub fn sizes_are_numbers()
    ensures key { MAX_KEY ≡ 32 }
    ensures value { MAX_VALUE ≡ 131072 }
    ensures overhead { OVERHEAD ≡ 16 }
    ensures key_start { KEY_START ≡ 12 }
    ensures shortest { MIN_FRAME ≡ 17 }
    ensures longest { MAX_FRAME ≡ 131120 }
    ensures slot { SLOT_BYTES ≡ 64 }
    ensures slot_key { SLOT_KEY_START ≡ 16 }
    ensures pointer { POINTER_BYTES ≡ 8 }
{}

/// How a disk may be divided, in numbers.
pub fn divisions_are_numbers()
    ensures extent_blocks { (f : FormatFields) → IsFormat f → (16 ≤ extent_blocks f) × (extent_blocks f ≤ 64) }
    ensures lengths { (length : ℕ) → 16 ≤ length → length ≤ 64 → IsFormat (Two length) }
    ensures values { (length : ℕ) → value_limit (Two length) ≡ min 131072 (4096 * length - 48) }
    ensures frames { (length : ℕ) → longest_frame (Two length) ≡ 131120 }
    ensures index { (g : GeometryFields) → IsGeometry g → (1 ≤ g.index) × (g.index ≤ 16) }
    ensures extents { (g : GeometryFields) → IsGeometry g → (2 ≤ g.extents) × (g.extents ≤ 254) }
    ensures slots { (g : GeometryFields) → slot_count g ≡ 64 * g.index }
    ensures slot { (n : ℕ) → (slot_block n ≡ 1 + n / 64) × (slot_start n ≡ 64 * (n % 64)) }
{}

/// The greatest write pointer is the length of the longest extents, which have 64 blocks.
pub fn the_longest_extents_reach_the_limit()
    ensures reached { largest_pointer (Two 64) ≡ MAX_POINTER }
    ensures passed_by_none { (f : FormatFields) → IsFormat f → largest_pointer f ≤ MAX_POINTER }
{}

// Frames.

/// No frame is a proper front of another one.
pub fn no_frame_begins_another()
    ensures { (limit : ℕ) (a b : Content) (rest : List ℕ) → limit < 2 ^ 32 → Fits limit a → Fits limit b
        → spelling b ≡ spelling a ++ rest → (rest ≡ []) × (a ≡ b) }
{}

/// What is spelled is read, whatever follows it, and a frame has as many bytes as is said.
pub fn frames_are_read_again()
    ensures read { (limit : ℕ) (c : Content) (rest : List ℕ) → limit < 2 ^ 32 → Fits limit c
        → frame_at limit (spelling c ++ rest) ≡ Ok c }
    ensures length { (c : Content) → length (spelling c) ≡ length_of c }
{}

/// Bytes divide into frames in one way.
pub fn runs_divide_in_one_way()
    ensures { (limit : ℕ) (a b : List Content) → limit < 2 ^ 32 → AllFit limit a → AllFit limit b
        → run a ≡ run b → a ≡ b }
{}

/// A frame whose value keeps the limit of a version may be named by a slot of it, and fits one of its extents.
pub fn frames_fit_extents()
    ensures { (f : FormatFields) (c : Content) → IsFormat f → Fits (value_limit f) c
        → (MIN_FRAME ≤ length_of c) × (length_of c ≤ longest_frame f) × (length_of c ≤ largest_pointer f) }
{}

// Slots, pointer records and the superblock.

/// What is spelled is read, so different slots have different bytes.
pub fn slots_are_read_again()
    ensures read { (longest : ℕ) (s : Option slot.SlotFields) → longest < 2 ^ 32 → slot.Fits longest s
        → slot.slot_at longest (slot.spelling s) ≡ Ok s }
    ensures length { (longest : ℕ) (s : Option slot.SlotFields) → slot.Fits longest s → length (slot.spelling s) ≡ SLOT_BYTES }
{}

/// What is spelled is read, so different records have different bytes.
pub fn pointers_are_read_again()
    ensures { (largest : ℕ) (p : PointerFields) → largest < 2 ^ 32 → pointer.Fits largest p
        → pointer.pointer_at largest (pointer.spelling p) ≡ Ok p }
{}

/// A record of bytes that is read is spelled by what it is read as, and that fits.
pub fn read_pointers_are_spelled()
    ensures { (largest : ℕ) (bytes : List ℕ) (p : PointerFields) → AreBytes bytes → length bytes ≡ POINTER_BYTES
        → pointer.pointer_at largest bytes ≡ Ok p → pointer.Fits largest p × (bytes ≡ pointer.spelling p) }
{}

/// What is spelled is read, so different divisions of a disk have different superblocks.
pub fn superblocks_are_read_again()
    ensures read { (g : GeometryFields) → IsGeometry g → superblock.superblock_at (superblock.spelling g) ≡ Ok g }
    ensures length { (g : GeometryFields) → length (superblock.spelling g) ≡ BLOCK }
{}

/// The superblocks of version 1 and of version 2 with extents of 16 blocks differ in bytes 8 to 23 alone, and the disks
/// are divided alike.
pub fn versions_differ_in_sixteen_bytes()
    ensures bytes { (index extents : ℕ) → superblock.AgreeOutside 8 24
        (superblock.spelling (superblock.in_version_1 index extents)) (superblock.spelling (superblock.in_version_2 index extents)) }
    ensures blocks { (index extents : ℕ) →
        block_count (superblock.in_version_2 index extents) ≡ block_count (superblock.in_version_1 index extents) }
{}

/// Slots lie before the pointer block. The extents lie behind it, one behind the other, and end with the disk.
pub fn areas_lie_apart()
    ensures index { (g : GeometryFields) (slot : ℕ) → slot < slot_count g → slot_block slot < pointer_block g }
    ensures first { (g : GeometryFields) (extent : ℕ) → pointer_block g < first_block g extent }
    ensures apart { (g : GeometryFields) (a b : ℕ) → a < b → first_block g a + extent_blocks g.format ≤ first_block g b }
    ensures last { (g : GeometryFields) → first_block g g.extents ≡ block_count g }
{}
