//! Kinds of commands. The number in a command's field `kind` says what the command does. `pix.h`
//! has them as `pix_kind`.

/// The image is cleared.
pub const CLEAR: u32 = 0;

/// A color is copied.
pub const COPY_COLOR: u32 = 1;

/// A region of an image is copied.
pub const COPY_IMAGE: u32 = 2;

/// A color is composited.
pub const COMPOSITE_COLOR: u32 = 3;

/// A region of an image is composited.
pub const COMPOSITE_IMAGE: u32 = 4;

/// A color is composited through mattes.
pub const COMPOSITE_MATTE: u32 = 5;

/// A region of an image is composited through mattes.
pub const COMPOSITE_IMAGE_MATTE: u32 = 6;

/// A region of an image is composited at an opacity.
pub const COMPOSITE_IMAGE_ALPHA: u32 = 7;
