//! What records and files of a dataset read as.
ghost use Rattle.std.specs.Prelude.{◌≡◌, ℕ, List, Some};
ghost use Rattle.scr_base.specs.declared.shape.Shape.{Shape};
ghost use Rattle.node_device.specs.File.{MayLeave};
ghost use Rattle.node_device.specs.DeviceState.{DeviceState};
ghost use Rattle.dataset_desc.specs.declared.desc.Desc.{Desc};
ghost use Rattle.filemap.specs.declared.rows.FileRow.{FileRow};
ghost use Rattle.member_store.specs.Members.{member_body};
ghost use Rattle.member_store.specs.Names.{part_name};
ghost use Rattle.member_store.specs.declared.part.Part.TheVariants.{File as FilePart};
ghost use Rattle.ckpt_model.specs.Dataset.{Dataset, File};
ghost use Rattle.site_stands.specs.Described.{Describes, IsFileAt};
ghost use Rattle.site_stands.specs.Members.{MemberStands};

/// Two descriptions of one dataset spell one record on each node.
pub fn one_dataset_has_one_record()
    ensures { (shape : Shape) (desc other : Desc) (rows more : List (List FileRow)) (d : Dataset) (node : ℕ) → Describes shape desc rows d → Describes shape other more d → member_body desc node rows ≡ member_body other node more }
{}

/// Where a member stands, each of its files reads as the machine has it.
pub fn a_file_of_a_member_reads()
    ensures { (shape : Shape) (disk : DeviceState) (d : Dataset) (node local j : ℕ) (f : File) → ((q : List ℕ) → MayLeave (disk.file q) (disk.file q).now) → MemberStands shape disk d node → IsFileAt shape d node local j f
        → (disk.file (part_name d.which node (FilePart local j))).now ≡ Some f.bytes }
{}
