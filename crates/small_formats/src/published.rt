//! The named formats, scales and blocks are those of the documents that define them. So one with another constant would
//! not be proved.

ghost use Rattle.std.specs.Prelude.{◌≡◌, ◌*◌, ◌^◌, true, false};
ghost use Rattle.apfloat_model.specs.formats.Datum.{finite, infinite, nan};
ghost use Rattle.apfloat_model.specs.order.Classes.{is_nan};
ghost use Rattle.small_formats.specs.{Scales.scale_format, Scales.scale_of, Types.constants_of, Float8E3M4.e3m4_datum};
ghost use Rattle.small_formats.specs.{Float8E3M4.e3m4_format, Published.IsPublishedElement, Published.e2m1};
ghost use Rattle.small_formats.specs.{Published.e2m3, Published.e3m2, Unsigned.signed_format, Unsigned.unsigned_datum};
ghost use Rattle.small_formats.specs.declared.blocks.{mx.TheConstants.BLOCK, nvfp4.TheConstants.NVFP4_BLOCK};

/// `E2M1FN`, `E2M3FN` and `E3M2FN` are the elements of OCP Microscaling Formats 1.0 (5.3).
pub fn elements_are_those_of_ocp()
    ensures e2m1 { IsPublishedElement e2m1
        (constants_of ⟦<crate::E2M1FN as crate::StorageFormat>⟧) }
    ensures e2m3 { IsPublishedElement e2m3
        (constants_of ⟦<crate::E2M3FN as crate::StorageFormat>⟧) }
    ensures e3m2 { IsPublishedElement e3m2
        (constants_of ⟦<crate::E3M2FN as crate::StorageFormat>⟧) }
{}

/// `E8M0FNU` is the scale of OCP Microscaling Formats 1.0 (5.4): 1 has the code 127, and the NaN 255.
pub fn scales_are_those_of_ocp()
    ensures one { scale_of 127 ≡ finite false (2 ^ scale_format.scale) }
    ensures nan { scale_of 255 ≡ nan false 0 }
{}

/// `UE4M3` is the scale of NVFP4: 1 has the code 56, 448 the code 126, and the NaN 127.
pub fn unsigned_scales_are_those_of_nvfp4()
    ensures one { unsigned_datum 56 ≡ finite false (2 ^ signed_format.scale) }
    ensures largest { unsigned_datum 126 ≡ finite false (448 * 2 ^ signed_format.scale) }
    ensures nan { is_nan (unsigned_datum 127) ≡ true }
{}

/// `Float8E3M4` is that of LLVM and ONNX: 1 has the code 48, 15.5 the code 111, and infinity 112.
pub fn e3m4_is_that_of_llvm()
    ensures one { e3m4_datum 48 ≡ finite false (2 ^ e3m4_format.scale) }
    ensures largest { e3m4_datum 111 ≡ finite false (31 * 2 ^ 5) }
    ensures infinity { e3m4_datum 112 ≡ infinite false }
{}

/// A block has 32 elements in OCP Microscaling Formats 1.0, and 16 in NVFP4.
pub fn block_lengths_are_published()
    ensures mx { BLOCK ≡ 32 }
    ensures nvfp4 { NVFP4_BLOCK ≡ 16 }
{}
