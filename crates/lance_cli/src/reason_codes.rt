// The code of each reason why an object is outside of what is read.
ghost use Rattle.std.specs.Prelude.{◌≡◌, ◌++◌, IfOk, codes, string_bytes};
ghost use Rattle.std.specs.Fmt.{signed_decimal};
ghost use Rattle.json.specs.Print.{quoted};
ghost use Rattle.lance_cli.specs.ReasonCodes.{code_of, head_code, index_code, join_code, manifest_code, message_name, meta_code, page_code, schema_code, wire_code, zip_code};

use lan_file::HeadReason;
use lan_index::IndexFault;
use lan_levels::Join;
use lan_manifest::ManifestFault;
use lan_meta::{Message, MetaFault};
use lan_model::Text;
use lan_page::PageReason;
use lan_read::Reason;
use lan_schema::SchemaFault;
use lan_wire::WireKind;
use lan_zip::ZipFault;
use serde_json::Value;
use std::alloc::{AllocError, Global};

/// The reason's code: a word, then its numbers in decimal, each after a space. A logical type stands in
/// quotes, as JSON writes it.
pub fn reason_code(alloc: Global, reason: &Reason) -> Result<String, AllocError>
    ensures { IfOk result (λ code. string_bytes code ≡ code_of reason.now) }
{
    match reason {
        Reason::Missing => String::from_str(alloc, "missing"),
        Reason::Size => String::from_str(alloc, "size"),
        Reason::Short => String::from_str(alloc, "short"),
        Reason::Manifest(fault) => manifest_code(alloc, fault),
        Reason::File(fault) => head_code(alloc, *fault),
        Reason::Rows(stated, physical) => format!(in alloc; "file-rows {stated} {physical}"),
        Reason::Page(fault) => page_code(alloc, *fault),
        Reason::Join(fault) => join_code(alloc, *fault),
    }
}

fn manifest_code(alloc: Global, fault: &ManifestFault) -> Result<String, AllocError>
    ensures { IfOk result (λ code. string_bytes code ≡ manifest_code fault.now) }
{
    match fault {
        ManifestFault::TooShort => String::from_str(alloc, "manifest-short"),
        ManifestFault::Magic => String::from_str(alloc, "manifest-magic"),
        ManifestFault::Region => String::from_str(alloc, "manifest-region"),
        ManifestFault::Wire(fault) => wire_code(alloc, fault.kind),
        ManifestFault::Schema(fault) => schema_code(alloc, fault),
        ManifestFault::VersionDiffers(named, stated) => {
            format!(in alloc; "manifest-version {named} {stated}")
        }
        ManifestFault::UnknownFlag(flags) => format!(in alloc; "manifest-flags {flags}"),
        ManifestFault::Fragments => String::from_str(alloc, "manifest-fragments"),
        ManifestFault::FragmentId(id) => format!(in alloc; "manifest-fragment-id {id}"),
        ManifestFault::RowIds(id) => format!(in alloc; "manifest-row-ids {id}"),
        ManifestFault::Rows(id) => format!(in alloc; "manifest-rows {id}"),
        ManifestFault::Path(id) => format!(in alloc; "manifest-path {id}"),
        ManifestFault::Lists(id) => format!(in alloc; "manifest-lists {id}"),
        ManifestFault::FileVersion(id) => format!(in alloc; "manifest-file-version {id}"),
        ManifestFault::DeletionType(kind) => format!(in alloc; "manifest-deletion-type {kind}"),
        ManifestFault::FieldTwice(id) => format!(in alloc; "manifest-field-twice {id}"),
        ManifestFault::PartField(id) => format!(in alloc; "manifest-part-field {id}"),
        ManifestFault::Absent(id) => format!(in alloc; "manifest-absent {id}"),
        ManifestFault::Memory => String::from_str(alloc, "memory"),
    }
}

fn schema_code(alloc: Global, fault: &SchemaFault) -> Result<String, AllocError>
    ensures { IfOk result (λ code. string_bytes code ≡ schema_code fault.now) }
{
    match fault {
        SchemaFault::Wire(fault) => wire_code(alloc, fault.kind),
        SchemaFault::Empty => String::from_str(alloc, "schema-empty"),
        SchemaFault::BadId(id) => format!(in alloc; "schema-id {id}"),
        SchemaFault::SameId(id) => format!(in alloc; "schema-same-id {id}"),
        SchemaFault::BadParent(id) => format!(in alloc; "schema-parent {id}"),
        SchemaFault::NoName(id) => format!(in alloc; "schema-no-name {id}"),
        SchemaFault::SameName(id) => format!(in alloc; "schema-same-name {id}"),
        SchemaFault::UnknownType(id, kind) => type_code(alloc, *id, kind),
        SchemaFault::Children(id) => format!(in alloc; "schema-children {id}"),
        SchemaFault::TooDeep(id) => format!(in alloc; "schema-deep {id}"),
        SchemaFault::TooManyLeaves => String::from_str(alloc, "schema-leaves"),
        SchemaFault::Memory => String::from_str(alloc, "memory"),
    }
}

// The code of a field whose logical type isn't known.
fn type_code(alloc: Global, id: i32, kind: &Text) -> Result<String, AllocError>
    ensures { IfOk result (λ code. string_bytes code ≡ codes "schema-type " ++ (signed_decimal id ++ (codes " " ++ quoted kind.now))) }
{
    let kind = Value::String(String::from_str(alloc, kind.as_str())?).to_string(alloc)?;
    format!(in alloc; "schema-type {id} {kind}")
}

fn wire_code(alloc: Global, kind: WireKind) -> Result<String, AllocError>
    ensures { IfOk result (λ code. string_bytes code ≡ wire_code kind) }
{
    match kind {
        WireKind::Cut => String::from_str(alloc, "wire-cut"),
        WireKind::TooLong => String::from_str(alloc, "wire-long"),
        WireKind::BadType => String::from_str(alloc, "wire-type"),
        WireKind::BadNumber => String::from_str(alloc, "wire-number"),
        WireKind::WrongType(number) => format!(in alloc; "wire-kind {number}"),
        WireKind::Twice(number) => format!(in alloc; "wire-twice {number}"),
        WireKind::Range(number) => format!(in alloc; "wire-range {number}"),
        WireKind::NotText(number) => format!(in alloc; "wire-text {number}"),
        WireKind::Refused(number) => format!(in alloc; "wire-refused {number}"),
    }
}

fn head_code(alloc: Global, reason: HeadReason) -> Result<String, AllocError>
    ensures { IfOk result (λ code. string_bytes code ≡ head_code reason) }
{
    match reason {
        HeadReason::Missing => String::from_str(alloc, "missing"),
        HeadReason::Size => String::from_str(alloc, "size"),
        HeadReason::Short => String::from_str(alloc, "short"),
        HeadReason::TooShort => String::from_str(alloc, "file-short"),
        HeadReason::Magic => String::from_str(alloc, "file-magic"),
        HeadReason::Version(major, minor) => format!(in alloc; "file-version {major} {minor}"),
        HeadReason::Region => String::from_str(alloc, "file-region"),
        HeadReason::Descriptor => String::from_str(alloc, "file-descriptor"),
        HeadReason::Column(number) => format!(in alloc; "file-column {number}"),
        HeadReason::Wire(fault) => wire_code(alloc, fault.kind),
        HeadReason::Meta(fault) => meta_code(alloc, fault),
        HeadReason::ColumnRows(number) => format!(in alloc; "column-rows {number}"),
    }
}

fn meta_code(alloc: Global, fault: MetaFault) -> Result<String, AllocError>
    ensures { IfOk result (λ code. string_bytes code ≡ meta_code fault) }
{
    match fault {
        MetaFault::Wire(fault) => wire_code(alloc, fault.kind),
        MetaFault::Unsupported(message, number, _) => {
            let message = message_name(message);
            format!(in alloc; "meta-unsupported {message} {number}")
        }
        MetaFault::Missing(message, number) => {
            let message = message_name(message);
            format!(in alloc; "meta-missing {message} {number}")
        }
        MetaFault::Layers(_) => String::from_str(alloc, "meta-layers"),
        MetaFault::Counts(_) => String::from_str(alloc, "meta-counts"),
        MetaFault::Values(_) => String::from_str(alloc, "meta-values"),
        MetaFault::Bits(_) => String::from_str(alloc, "meta-bits"),
        MetaFault::Region(_) => String::from_str(alloc, "meta-region"),
        MetaFault::Memory => String::from_str(alloc, "memory"),
    }
}

fn message_name(message: Message) -> &'static str
    ensures { result.now ≡ message_name message }
{
    match message {
        Message::ColumnMetadata => "ColumnMetadata",
        Message::Page => "Page",
        Message::Encoding => "Encoding",
        Message::DirectEncoding => "DirectEncoding",
        Message::PageLayout => "PageLayout",
        Message::MiniBlock => "MiniBlock",
        Message::Constant => "Constant",
        Message::FullZip => "FullZip",
        Message::Values => "Values",
        Message::Flat => "Flat",
        Message::Variable => "Variable",
        Message::ConstantValue => "ConstantValue",
    }
}

fn page_code(alloc: Global, reason: PageReason) -> Result<String, AllocError>
    ensures { IfOk result (λ code. string_bytes code ≡ page_code reason) }
{
    match reason {
        PageReason::Missing => String::from_str(alloc, "missing"),
        PageReason::Short => String::from_str(alloc, "short"),
        PageReason::Index(fault) => index_code(alloc, fault),
        PageReason::Content(entry) => format!(in alloc; "index-content {entry}"),
        PageReason::Zip(fault) => zip_code(alloc, fault),
        PageReason::Start => String::from_str(alloc, "page-start"),
        PageReason::Rows => String::from_str(alloc, "page-rows"),
    }
}

fn index_code(alloc: Global, fault: IndexFault) -> Result<String, AllocError>
    ensures { IfOk result (λ code. string_bytes code ≡ index_code fault) }
{
    match fault {
        IndexFault::Length => String::from_str(alloc, "index-length"),
        IndexFault::Slots => String::from_str(alloc, "index-slots"),
        IndexFault::Size => String::from_str(alloc, "index-size"),
        IndexFault::Rows => String::from_str(alloc, "index-rows"),
        IndexFault::Lead(chunk) => format!(in alloc; "index-lead {chunk}"),
        IndexFault::Falling(offset) => format!(in alloc; "index-falling {offset}"),
        IndexFault::End => String::from_str(alloc, "index-end"),
    }
}

fn zip_code(alloc: Global, fault: ZipFault) -> Result<String, AllocError>
    ensures { IfOk result (λ code. string_bytes code ≡ zip_code fault) }
{
    match fault {
        ZipFault::Cut(slot) => format!(in alloc; "zip-cut {slot}"),
        ZipFault::Level(slot) => format!(in alloc; "zip-level {slot}"),
        ZipFault::Rows => String::from_str(alloc, "zip-rows"),
        ZipFault::Extra => String::from_str(alloc, "zip-extra"),
    }
}

fn join_code(alloc: Global, fault: Join) -> Result<String, AllocError>
    ensures { IfOk result (λ code. string_bytes code ≡ join_code fault) }
{
    match fault {
        Join::Shape(field) => format!(in alloc; "rows-shape {field}"),
        Join::NotNull(field) => format!(in alloc; "rows-null {field}"),
        Join::NotText(field) => format!(in alloc; "rows-text {field}"),
        Join::Memory => String::from_str(alloc, "memory"),
    }
}
