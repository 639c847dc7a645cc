//! What the definitions obey: each law is a call that does nothing and whose contract is the law.

ghost use Rattle.std.specs.Prelude.{◌≡◌, ◌↔◌, ℕ, List, length, Some};
ghost use Rattle.dns_wire.specs.declared.rdata.Data.{Data};
ghost use Rattle.dns_wire.specs.Forms.{form_of, variant_of};
ghost use Rattle.dns_wire.specs.ReadBack.{IsData};
ghost use Rattle.dns_wire.specs.Standing.{DataAt};
ghost use Rattle.dns_wire.specs.WireFormat.{data_bytes};
ghost use Rattle.dns_presentation.specs.TypedData.{typed_data};

/// What data in the general form is (RFC 3597 4, 5).
pub fn general_forms()
    // Bytes are read as the data that stands in them where they are the message: a name may be compressed.
    ensures standing { (number : ℕ) (bytes : List ℕ) (rdata : Data)
        → (typed_data number bytes ≡ Some rdata) ↔ DataAt bytes number 0 (length bytes) rdata }
    // The bytes that data is written as, with no name compressed, are read as this data.
    ensures written { (number : ℕ) (rdata : Data) → IsData rdata
        → form_of number (length (data_bytes rdata)) ≡ variant_of rdata → typed_data number (data_bytes rdata) ≡ Some rdata }
{}
