use crate::end::End;

/// An end may go from one thread to another.
pub fn send_law() {
    goes_to_threads::<End>()
}

fn goes_to_threads<T: Send>() {}
