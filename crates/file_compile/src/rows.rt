//! What a run of a text takes from the image.
ghost use Rattle.std.specs.Prelude.{◌≡◌, IfOk};
ghost use Rattle.eval_frames.specs.Views.{layout_view};
ghost use Rattle.correctness.specs.Setting as setting;
ghost use Rattle.image_form.specs.Tables.{tables};

use bs_words::List;
use cmm_eval::Layout;
use image_form::Image;
use rv_machine::CODE_START;
use std::alloc::{AllocError, Global};

/// The bytes of the frame of each function, and its address in the region of code.
///
/// The only error is want of memory.
pub fn layout(alloc: Global, image: &Image) -> Result<Layout, AllocError>
    ensures { IfOk result (λ layout. layout_view layout ≡ setting.layout_of (tables image.now)) }
{
    let mut frames = Vec::new(alloc);
    let mut addresses = Vec::new(alloc);
    for row in image.funcs.as_slice() {
        frames.push(row.frame)?;
        addresses.push(CODE_START + u64::from(row.offset))?;
    }
    let frames = List::from_vec(frames);
    let addresses = List::from_vec(addresses);
    Ok(Layout { frames, addresses })
}
