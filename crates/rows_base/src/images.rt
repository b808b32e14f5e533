//! What reading the bytes of an image comes to: its first fault and the place of that, or `comes back` where writing the
//! image gives the same bytes again.
//!
//! A row gives the bytes (`image 67 77 ..`), or what is changed in them for this row alone: `19=127` for a byte, `cut 20`
//! for the first 20 bytes, `more 0` for one byte at the end. The wanted lines are a second reader's, written from the
//! rules of images alone.
use anyhow::Result;
use bs_fault::image_text;
use image_codec::{read_image, write_image};
use image_form::ImageError;
use std::alloc::{AllocError, Global};
use std::num::ParseIntError;

/// What a row changes in the bytes.
#[derive(Clone, Copy)]
enum Change {
    Nothing,
    /// Only the first ones stay, so many.
    Cut(usize),
    /// A byte at the end.
    More(u8),
    /// A byte at a place.
    Byte(usize, u8),
}

/// What is shown of a row. `image` has the bytes that the last row of `image` gave.
pub(crate) fn said_to(alloc: Global, image: &mut Vec<u8>, row: &str) -> Result<Vec<u8>> {
    if let Some(numbers) = row.strip_prefix("image ") {
        *image = bytes_of(alloc, numbers)?;
    }
    Ok(told_of_change(alloc, image.as_slice(), change_of(row)?)?)
}

fn bytes_of(alloc: Global, numbers: &str) -> Result<Vec<u8>> {
    let mut bytes = Vec::new(alloc);
    for number in numbers.split(' ') {
        bytes.push(number.parse::<u8>()?)?;
    }
    Ok(bytes)
}

/// What a row changes in the bytes; a row that gives the bytes changes nothing.
fn change_of(row: &str) -> Result<Change, ParseIntError> {
    if let Some(count) = row.strip_prefix("cut ") {
        return Ok(Change::Cut(count.parse::<usize>()?));
    }
    if let Some(byte) = row.strip_prefix("more ") {
        return Ok(Change::More(byte.parse::<u8>()?));
    }
    match row.split_once('=') {
        Some((place, byte)) => byte_change(place, byte),
        None => Ok(Change::Nothing),
    }
}

/// A byte changes at a place.
fn byte_change(place: &str, byte: &str) -> Result<Change, ParseIntError> {
    let place = place.parse::<usize>()?;
    let byte = byte.parse::<u8>()?;
    Ok(Change::Byte(place, byte))
}

/// Makes a change in the bytes.
fn change_bytes(bytes: &mut Vec<u8>, change: Change) -> Result<(), AllocError> {
    match change {
        Change::Nothing => {}
        Change::Cut(count) => bytes.truncate(count),
        Change::More(byte) => bytes.push(byte)?,
        Change::Byte(place, byte) => {
            if let Some(slot) = bytes.get_mut(place) {
                *slot = byte;
            }
        }
    }
    Ok(())
}

/// What reading the bytes with a change comes to.
fn told_of_change(alloc: Global, image: &[u8], change: Change) -> Result<Vec<u8>, AllocError> {
    let mut bytes = image.to_vec(alloc)?;
    change_bytes(&mut bytes, change)?;
    told(alloc, bytes.as_slice())
}

/// What reading these bytes comes to.
fn told(alloc: Global, bytes: &[u8]) -> Result<Vec<u8>, AllocError> {
    match read_image(alloc, bytes) {
        Ok(image) => told_of_written(alloc, write_image(alloc, &image)?.as_slice() == bytes),
        Err(ImageError::Refused(refusal)) => Ok(image_text(alloc, &refusal)?.into_vec()),
        Err(ImageError::OutOfMemory) => b"no memory\n".to_vec(alloc),
    }
}

/// Whether writing the image gives the same bytes again.
fn told_of_written(alloc: Global, is_same: bool) -> Result<Vec<u8>, AllocError> {
    if is_same {
        b"comes back\n".to_vec(alloc)
    } else {
        b"differs\n".to_vec(alloc)
    }
}
