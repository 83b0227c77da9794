use dataset_desc::Desc;
use filemap::Filemap;

/// A dataset in the index, whose flushed files stand under the folder of its name.
#[derive(Debug, Drop)]
pub struct Entry {
    pub desc: Desc,
    pub files: Filemap,
    /// Is gate 1 open: was the dataset found to be bad when it was read?
    pub failed: bool,
}
